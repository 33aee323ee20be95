ghost use Rattle.std.specs.Prelude.{◌≡◌, ◌≤◌, IsOk, length};
ghost use Rattle.refusals.specs.Refusal.{told as told_of, number_of, carried_by, listed};
ghost use Rattle.text.specs.Put.{InRoom};
ghost use Rattle.forms.specs.Says.{Said};
ghost use Rattle.forms.specs.Told.{refusal_text, told_text, told_most};
ghost use Rattle.text.specs.Page.{contents};

use crate::form::fits;
use crate::put_form;
use refusals::Refusal;
use text::{Full, Page};

// What a call hands back: the words of its answer, or its refusal.
pub fn put_told(
    form: &[u8],
    told: Result<(), Refusal>,
    words: &[u32],
    page: &mut Page<'_>,
) -> Result<(), Full>
    ensures { InRoom (told_most form.now) (Said (told_most form.now) (told_text form.now (told_of told) words.now)) (contents page.old) (contents page.new) result }
{
    fits(form, page.room())?;
    if page.room() < 40 {
        return Err(Full);
    }
    match told {
        Ok(()) => put_form(form, words, page),
        Err(refusal) => put_refusal(refusal, page),
    }
}

fn put_refusal(refusal: Refusal, page: &mut Page<'_>) -> Result<(), Full>
    requires { 40 ≤ length (contents page.old).rest }
    ensures { IsOk result × Said 40 (refusal_text (number_of refusal) (listed (carried_by refusal))) (contents page.old) (contents page.new) }
{
    let number = refusal.number();
    match refusal.carried() {
        Some(carried) => put_form(b"refused # #", &[number, carried], page),
        None => put_form(b"refused #", &[number], page),
    }
}
