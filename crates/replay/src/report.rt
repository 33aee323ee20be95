// What is printed, written on a page: the numbers of a trace in six lines, or why there are none.
ghost use Rattle.std.specs.Prelude.{◌≡◌, ◌+◌, ◌≤◌, length, IsOk};
ghost use Rattle.text.specs.Put.{InRoom};
ghost use Rattle.forms.specs.Says.{Said};
ghost use Rattle.replay.specs.declared.report.Fault.TheVariants.{TooLong};
ghost use Rattle.replay.specs.Report.{line, lead_line, difference_line, report_of, REPORT, fault_of, FAULT};
ghost use Rattle.text.specs.Page.{contents};

use text::{Full, Page};
use trace::{Lead, Trace, TraceError};

// Why a trace has no report: it is longer than can be, ends inside a sample at this length, or cannot be read after so many bytes.
#[derive(Clone, Copy)]
pub enum Fault {
    TooLong,
    Unfinished(u64),
    Unreadable(u64),
}

// A block's rows have one length, so that it is refused for the trace's alone.
impl From<TraceError> for Fault {
    ghost from_gives = { λ _ fault. fault ≡ TooLong };

    fn from(_error: TraceError) -> Fault {
        Fault::TooLong
    }
}

pub fn put_report(trace: Trace, page: &mut Page<'_>) -> Result<(), Full>
    ensures { InRoom REPORT (Said REPORT (report_of trace)) (contents page.old) (contents page.new) result }
{
    if page.room() < 320 {
        return Err(Full);
    }
    put_line(b"samples ", u64::from(trace.samples), page)?;
    put_line(b"first ", trace.first.total, page)?;
    put_line(b"second ", trace.second.total, page)?;
    put_difference(trace.first.total, trace.second.total, page)?;
    put_lead(b"first leads ", trace.first_leads, page)?;
    put_lead(b"second leads ", trace.second_leads, page)
}

pub fn put_fault(fault: Fault, page: &mut Page<'_>) -> Result<(), Full>
    ensures { InRoom FAULT (Said FAULT (fault_of fault)) (contents page.old) (contents page.new) result }
{
    if page.room() < 80 {
        return Err(Full);
    }
    match fault {
        Fault::TooLong => page.put_bytes(b"replay: refused 19: more than 16777216 samples\n"),
        Fault::Unfinished(n) => {
            put_line(b"replay: the trace ends inside a sample, at byte ", n, page)
        }
        Fault::Unreadable(n) => {
            put_line(b"replay: the trace cannot be read, after byte ", n, page)
        }
    }
}

#[tactic(auto, using(crate::proofs::Printing::twenty))]
fn put_line(name: &[u8], n: u64, page: &mut Page<'_>) -> Result<(), Full>
    requires { length name.now + 21 ≤ length (contents page.old).rest }
    ensures { IsOk result × Said (length name.now + 21) (line name.now n) (contents page.old) (contents page.new) }
{
    page.put_bytes(name)?;
    page.put_decimal(n)?;
    page.put_byte(b'\n')
}

fn put_difference(first: u64, second: u64, page: &mut Page<'_>) -> Result<(), Full>
    requires { 33 ≤ length (contents page.old).rest }
    ensures { IsOk result × Said 33 (difference_line first second) (contents page.old) (contents page.new) }
{
    if first < second {
        put_line(b"difference -", second - first, page)
    } else {
        put_line(b"difference ", first - second, page)
    }
}

#[tactic(auto, using(crate::proofs::Printing::twenty))]
fn put_lead(name: &[u8], lead: Lead, page: &mut Page<'_>) -> Result<(), Full>
    requires { length name.now + 45 ≤ length (contents page.old).rest }
    ensures { IsOk result × Said (length name.now + 45) (lead_line name.now lead) (contents page.old) (contents page.new) }
{
    page.put_bytes(name)?;
    page.put_decimal(lead.ticks)?;
    put_line(b" at ", u64::from(lead.at), page)
}
