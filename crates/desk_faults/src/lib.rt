// What is wrong with which word of a line.
#![tactic(auto)]

ghost use Rattle.std.specs.Prelude.{◌≡◌};
ghost use Rattle.text.specs.Put.{InRoom};
ghost use Rattle.forms.specs.Says.{Said};
ghost use Rattle.desk_faults.specs.Complaint.{complaint, wrong};
ghost use Rattle.text.specs.Page.{contents};

use forms::put_form;
use shapes::{BadWord, Fault};
use text::{Full, Page};

pub fn put_fault(bad: BadWord, page: &mut Page<'_>) -> Result<(), Full>
    ensures { InRoom 100 (Said 100 (complaint bad.word bad.fault)) (contents page.old) (contents page.new) result }
{
    if page.room() < 100 {
        return Err(Full);
    }
    put_form(b"bad_line:_word_#_is_", &[bad.word], page)?;
    put_form(text(bad.fault), &[bad.word], page)
}

// A form, in which `_` is a space.
fn text(fault: Fault) -> &'static [u8]
    ensures { result.now ≡ wrong fault }
{
    match fault {
        Fault::Missing => b"missing",
        Fault::Empty => b"empty",
        Fault::NotANumber => b"not_a_number",
        Fault::TooLarge => b"too_large",
        Fault::NotEightDigits => b"not_8_hex_digits",
        Fault::OneTooMany => b"one_too_many",
        Fault::NoSuchName => b"not_a_name_known_here",
    }
}
