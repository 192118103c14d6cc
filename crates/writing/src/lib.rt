// The second pass: signs to a lent row, one behind another. It is lent signs and no text, and what it promises is of any signs (specs/Joined.antt).
#![tactic(auto)]

ghost use Rattle.std.specs.Prelude.{◌≡◌, [], ◌∷◌, ◌≤◌, length};
ghost use Rattle.rows.specs.Laid.{laid};
ghost use Rattle.entries.specs.SignWords.{cells_in};
ghost use Rattle.writing.specs.Joined.{joined};

// Writes the cell of a sign that has one at the front of what it is lent.
fn put_cell(row: &mut [u8], cell: u8)
    requires { 1 ≤ length row.old }
    ensures { row.new ≡ laid (cell ∷ []) row.old }
{
    row[0] = cell;
}

// Writes the cells of any sign there. (Two and three cells go by one arm: four arms would be a table of jumps, which is slower.)
fn put_cells(row: &mut [u8], sign: u32)
    requires { length (cells_in sign) ≤ length row.old }
    ensures { row.new ≡ laid (cells_in sign) row.old }
{
    match entries::sign::count_of(sign) {
        0 => {}
        1 => row[0] = entries::sign::first_of(sign),
        count => {
            row[0] = entries::sign::first_of(sign);
            row[1] = entries::sign::second_of(sign);
            if count == 3 {
                row[2] = entries::sign::third_of(sign);
            }
        }
    }
}

// "Each sign goes straight to its own stretch of the lent row": its writer is lent the rest of the row, from the count on. Most signs have one cell, so that
// is asked first.
pub fn write(signs: &[u32], row: &mut [u8]) -> usize
    requires { length (joined signs.now) ≤ length row.old }
    ensures { (result ≡ length (joined signs.now)) × (row.new ≡ laid (joined signs.now) row.old) }
{
    let mut n: usize = 0;
    for sign in signs {
        let count = entries::sign::count_of(*sign);
        if count == 1 {
            let cell = entries::sign::first_of(*sign);
            put_cell(&mut row[n..], cell);
        } else {
            put_cells(&mut row[n..], *sign);
        }
        n += count;
    }
    n
}
