// The pair rule over bits: which kinds are open is a number, a bit for each kind (specs/Opened.antt). What it says for a text and for a row is
// the same, so the transcriber and the reader both go by it. A new kind is a number more in crates/rules/specs/Pairs.antt, and nothing here.
#![tactic(auto)]

ghost use Rattle.std.specs.Prelude.{◌≡◌, ◌<◌};
ghost use Rattle.rules.specs.Pairs.{kinds};
ghost use Rattle.entries.specs.Entries.{marks};
ghost use Rattle.pairs.specs.Opened.{open_states, is_open, turned_by, pairs_by};

// Is the kind open?
pub fn is_open(opened: usize, kind: usize) -> bool
    requires { kind < kinds }
    ensures { result ≡ is_open opened kind }
{
    (opened >> kind) % 2 == 1
}

// The kind turned: closed where it is open, opened where it is closed. The others stay as they are: "Kinds may cross."
pub fn turned(opened: usize, kind: usize) -> usize
    requires { (opened < open_states) × (kind < kinds) }
    ensures { result ≡ turned_by opened kind }
{
    opened ^ (1usize << kind)
}

// "An opener stands only where its kind is closed, a closer only where it is open.": which kinds are open behind a mark, or none where it may not stand. The
// mark is 2k + 1 for the opener of kind k, 2k + 2 for its closer.
pub fn pairs_after(opened: usize, mark: usize) -> Option<usize>
    requires { (opened < open_states) × (0 < mark) × (mark < marks) }
    ensures { result ≡ pairs_by opened mark }
{
    let kind = (mark - 1) / 2;
    let opener = mark % 2 == 1;
    if is_open(opened, kind) == opener {
        return None;
    }
    Some(turned(opened, kind))
}
