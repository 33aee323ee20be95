ghost use Rattle.std.specs.Prelude.{◌≡◌, ◌≤◌, IsOk, IsErr, drop, get_or, length};
ghost use Rattle.std.specs.Slice.Iter.{iter_rest};
ghost use Rattle.bounds.specs.Within.{Within};
ghost use Rattle.text.specs.Put.{InRoom};
ghost use Rattle.forms.specs.Form.{kind_of, item, takes, width as width_of, printed, most};
ghost use Rattle.forms.specs.Says.{Said};
ghost use Rattle.text.specs.Page.{contents};

use crate::kind::Kind;
use std::slice::Iter;
use text::{Full, Page};

pub fn put_form(form: &[u8], words: &[u32], page: &mut Page<'_>) -> Result<(), Full>
    ensures { InRoom (most form.now) (Said (most form.now) (printed form.now words.now)) (contents page.old) (contents page.new) result }
{
    fits(form, page.room())?;
    let mut left = words.iter();
    for &byte in form {
        put_item(byte, &mut left, page)?;
    }
    Ok(())
}

// Whether there is room for all that the form may print.
pub fn fits(form: &[u8], room: usize) -> Result<(), Full>
    ensures { Within (most form.now) room (IsOk result) (IsErr result) }
{
    let mut left = room;
    for &byte in form {
        left = left.checked_sub(Kind::from(byte).width()).ok_or(Full)?;
    }
    Ok(())
}

// What a byte of the form stands for, with the words that it takes.
fn put_item(byte: u8, words: &mut Iter<'_, u32>, page: &mut Page<'_>) -> Result<(), Full>
    requires { width_of (kind_of byte) ≤ length (contents page.old).rest }
    ensures text { IsOk result × Said (width_of (kind_of byte)) (item (kind_of byte) byte (get_or (iter_rest words.old) 0 0) (get_or (iter_rest words.old) 1 0)) (contents page.old) (contents page.new) }
    ensures rest { iter_rest words.new ≡ drop (takes (kind_of byte)) (iter_rest words.old) }
{
    match Kind::from(byte) {
        Kind::Number => page.put_decimal(u64::from(next(words))),
        Kind::Hex => page.put_hex(next(words)),
        Kind::Option => match next(words) {
            0 => page.put_bytes(b"none"),
            word => page.put_decimal(u64::from(word - 1)),
        },
        Kind::Clock => {
            let hertz = next(words);
            match next(words) {
                0 => page.put_decimal(u64::from(hertz)),
                _ => page.put_bytes(b"emio"),
            }
        }
        Kind::Space => page.put_byte(b' '),
        Kind::Itself => page.put_byte(byte),
    }
}

// The next word, or 0 where they have run out.
fn next(words: &mut Iter<'_, u32>) -> u32
    ensures word { result ≡ get_or (iter_rest words.old) 0 0 }
    ensures rest { iter_rest words.new ≡ drop 1 (iter_rest words.old) }
{
    words.next().copied().unwrap_or(0)
}
