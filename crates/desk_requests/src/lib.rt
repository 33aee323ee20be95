// One request, answered: its row of the table is found by its name, its words are read by the row's shape, and what is told of their numbers
// is printed by the row's form.
#![tactic(auto)]

mod table;

ghost use Rattle.std.specs.Prelude.{◌≡◌, ◌≤◌, length, IsOk};
ghost use Rattle.words.specs.Words.{words};
ghost use Rattle.text.specs.Put.{InRoom};
ghost use Rattle.forms.specs.Says.{ROOM, Says};
ghost use Rattle.desk_requests.specs.Answer.{Answer};
ghost use Rattle.desk_requests.specs.Found.{Short, says_of, Understood};
ghost use Rattle.text.specs.Page.{contents};

use arrayvec::ArrayVec;
use desk_faults::put_fault;
use desk_pll_seq::put_pll_seq;
use desk_uart_list::put_uart_list;
use forms::put_told;
use registers::word;
use shapes::{BadWord, read_shape};
use table::{Saying, find};
use text::{Full, Page};
use words::first_word;

pub fn answer_request(line: &[u8], page: &mut Page<'_>) -> Result<(), Full>
    ensures { InRoom ROOM (Says (Answer (words line.now))) (contents page.old) (contents page.new) result }
{
    if page.room() < 8192 {
        return Err(Full);
    }
    let mut numbers = ArrayVec::new();
    match read_request(line, &mut numbers) {
        Ok(says) => says.put(numbers.as_slice(), page),
        Err(bad) => put_fault(bad, page),
    }
}

// What a line asks to be said, and the numbers to say it of; or the word that is at fault.
fn read_request(line: &[u8], numbers: &mut ArrayVec<u32, 160>) -> Result<Saying, BadWord>
    ensures { Understood (words line.now) numbers.new.items result }
{
    let (name, rest) = first_word(line);
    let row = find(name)?;
    read_shape(row.shape, rest, numbers)?;
    Ok(row.says)
}

impl Saying {
    fn put(self, n: &[u32], page: &mut Page<'_>) -> Result<(), Full>
        requires { Short self × (ROOM ≤ length (contents page.old).rest) }
        ensures { IsOk result × Says (says_of self n.now) (contents page.old) (contents page.new) }
    {
        match self {
            Saying::UartList => put_uart_list(word(n, 0), word(n, 1), page),
            Saying::PllSeq => put_pll_seq(n, page),
            Saying::Help => page.put_bytes(
                b"two-stage REF TARGET MAX gives D0 D1; two-stage-frequency REF D0 D1 gives HZ; i2c REF normal|fast gives A B; i2c-speed REF A B gives HZ; ttc REF FREQ gives none|PRESCALER TICKS; pll-target CRYSTAL TARGET gives FDIV CP RES LOCK; pll-mul MUL gives FDIV CP RES LOCK; uart REF BAUD gives CD BDIV ERROR; cpu-init PLL RATIO DIV gives 1X 2X 3X2X 6X4X; ddr-init REF DIV3X DIV2X gives 3X 2X; clocks CRYSTAL W0 .. W49 gives ok and ARM_PLL IO_PLL DDR_PLL CPU_REF RATIO 1X 2X 3X2X 6X4X DDR_REF DDR3X DDR2X IO_REF SMC QSPI SDIO UART SPI CAN PCAP TRACE|emio FPGA0 FPGA1 FPGA2 FPGA3; gem 0|1 CRYSTAL W0 .. W49 gives HZ; ratios CRYSTAL W0 .. W49 gives N:D of FPGA0 to FPGA0 .. FPGA3, then of FPGA1, FPGA2 and FPGA3; uart-list REF BAUD gives the count and CD:BDIV:ERROR for each pair; pll-seq arm|ddr|io BYPASSED FDIV CP RES LOCK LIMIT R1 R2 .. gives the accesses and the end; help gives this line",
            ),
            Saying::Told(call, form) => {
                // Room for the longest answer, in fixed memory; the form says how many of the words are printed.
                let mut words = [0; 32];
                let told = call.make(n, &mut words);
                put_told(form, told, &words, page)
            }
        }
    }
}
