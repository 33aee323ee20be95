// One line of input, answered: without its line end, as a request, or as what is wrong with it. A carriage return at its end
// belongs to the line end. Blank lines and lines that begin with # are passed over.
ghost use Rattle.std.specs.Prelude.{◌≤◌, ◌≡◌, length, IsOk};
ghost use Rattle.words.specs.Words.{words};
ghost use Rattle.forms.specs.Says.{ROOM};
ghost use Rattle.desk.specs.Line.{trimmed, RequestLine, Writes, LineAnswered};
ghost use Rattle.text.specs.Page.{contents};

use desk_requests::answer_request;
use text::{Full, Page};

// A page that has not room for the longest answer is left as it was.
pub fn answer_line(line: &[u8], page: &mut Page<'_>) -> Result<(), Full>
    ensures { LineAnswered line.now (contents page.old) (contents page.new) result }
{
    if page.room() < 8192 {
        return Err(Full);
    }
    let request = trimmed(line);
    if request.len() == 0 {
        return Ok(());
    }
    if request[0] == b'#' {
        return Ok(());
    }
    if 1024 < request.len() {
        return page.put_bytes(b"bad line: longer than 1024 bytes\n");
    }
    put_request(request, page)
}

fn trimmed(line: &[u8]) -> &[u8]
    ensures { result.now ≡ trimmed line.now }
{
    match line.strip_suffix(b"\r") {
        Some(rest) => rest,
        None => line,
    }
}

fn put_request(line: &[u8], page: &mut Page<'_>) -> Result<(), Full>
    requires { ROOM ≤ length (contents page.old).rest }
    ensures { IsOk result × Writes (RequestLine (words line.now)) (contents page.old) (contents page.new) }
{
    answer_request(line, page)?;
    page.put_byte(b'\n')
}
