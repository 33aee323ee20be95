// The replay: a trace on standard input, four bytes a sample, and its numbers on standard output. A trace that has none gets one line on
// standard error that says why.
#![tactic(auto)]

mod block;
mod held;
mod read;
mod report;

use read::read_trace;
use report::{Fault, put_fault, put_report};
use std::io::IsTerminal;
use text::Page;
use trace::Trace;

fn main(rt: HostRuntime) {
    let shown = rt.stderr().is_terminal();
    let outcome = read_trace(rt, shown);
    if shown {
        clear(rt);
    }
    print(rt, outcome);
}

fn print(rt: HostRuntime, outcome: Result<Trace, Fault>) {
    let mut text = [0; 4096];
    let mut page = Page::new(&mut text);
    match outcome {
        Ok(trace) => {
            let _ = put_report(trace, &mut page);
            let _ = rt.stdout().write_all(page.text());
        }
        Err(fault) => {
            let _ = put_fault(fault, &mut page);
            let _ = rt.stderr().write_all(page.text());
        }
    }
}

fn clear(rt: HostRuntime) {
    let _ = rt.stderr().write_all(b"\r\x1b[K");
}
