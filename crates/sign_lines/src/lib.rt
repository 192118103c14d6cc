// The signs of an accepted row, printed: "for each sign a blank and PLACE:PRINT". Each sign is shown by a step that is given the row and the place alone.
#![tactic(auto)]

ghost use Rattle.std.specs.Prelude.{◌≡◌};
ghost use Rattle.printing.specs.Pages.{PagePrints};
ghost use Rattle.sign_lines.specs.Signs.{sign_line};
ghost use Rattle.sign_lines.specs.Walk.{shown_text, Accepted, SignsPrinted};

use desk::Sign;
use printing::Page;
use replies::BLANK;

const COLON: u8 = b':';

// A sign: "a blank and PLACE:PRINT"
fn put_sign(page: &mut Page, place: usize, sign: Sign)
    ensures { PagePrints page.old (sign_line place (shown_text sign)) page.new }
{
    page.byte(BLANK);
    page.number(place);
    page.byte(COLON);
    page.point(sign.first);
    // How many code points there are is a number, since C is given it (`desk::Sign`).
    if sign.second >= 2 {
        page.point(sign.then);
    }
}

// The signs of an accepted row, each by a step that is given the row and the place alone.
pub fn put_signs(page: &mut Page, row: &[u8])
    requires { Accepted row.now }
    ensures same { page.new.out.ghost_name ≡ page.old.out.ghost_name }
    ensures signs { SignsPrinted row.now page.old.out.now page.old.at page.new.at page.new.out.now }
{
    let mut place = 0;
    // Each step tells where the next one is asked: there is nothing that a `for` could go over.
    while place < row.len() {
        let sign = desk::desk_step(row, place);
        put_sign(page, place, sign);
        place = sign.next;
    }
}
