// The rows of the PLL sequence: which word of the image each reads or writes, and what it writes.
#![tactic(auto)]

ghost use Rattle.std.specs.Prelude.{◌≡◌, drop};
ghost use Rattle.registers.specs.Plls.{pll_lock};
ghost use Rattle.pll_rows.specs.Due.{IsDue, registers_of};
ghost use Rattle.pll_rows.specs.Sequence.{seen, with_settings, with_bypass, sequence};

use fields::{Field, read_field, set_field};
use pll_settings::PllConfig;
use registers::PllType;

// What a run of the sequence is for. Any values will do: a setting too wide for its field never reaches the other bits.
#[derive(Clone, Copy)]
pub struct PllPlan {
    pub pll: PllType,
    pub config: PllConfig,
    pub bypassed: bool,
}

// A row that is due: read a word of the image, write a value to one, read one until the PLL is locked, or nothing more.
#[derive(Clone, Copy)]
pub enum Due {
    Read(u32),
    Write(u32, u32),
    Poll(u32),
    End,
}

// The registers of one PLL: its control and configuration words in the image, and its bit of the status word.
#[derive(Clone, Copy)]
pub struct PllRegisters {
    pub ctrl: u32,
    pub cfg: u32,
    pub lock: Field,
}

impl From<PllType> for PllRegisters {
    ghost from_gives = { λ pll r. r ≡ registers_of pll };

    fn from(pll: PllType) -> PllRegisters {
        match pll {
            PllType::Arm => PllRegisters {
                ctrl: registers::ARM_PLL_CTRL as u32,
                cfg: registers::ARM_PLL_CFG as u32,
                lock: registers::ARM_LOCK,
            },
            PllType::Ddr => PllRegisters {
                ctrl: registers::DDR_PLL_CTRL as u32,
                cfg: registers::DDR_PLL_CFG as u32,
                lock: registers::DDR_LOCK,
            },
            PllType::Io => PllRegisters {
                ctrl: registers::IO_PLL_CTRL as u32,
                cfg: registers::IO_PLL_CFG as u32,
                lock: registers::IO_LOCK,
            },
        }
    }
}

// The PLL's lock bit is 1 in the status word.
pub fn locked(pll: PllType, status: u32) -> bool
    ensures { result ≡ seen status (pll_lock pll) }
{
    read_field(status, PllRegisters::from(pll).lock) == 1
}

fn with_settings(config: PllConfig, word: u32) -> u32
    ensures { result ≡ with_settings config word }
{
    let word = set_field(word, registers::CHARGE_PUMP, u32::from(config.charge_pump));
    let word = set_field(
        word,
        registers::LOOP_RESISTOR,
        u32::from(config.loop_resistor),
    );
    set_field(word, registers::LOCK_COUNT, u32::from(config.lock_count))
}

// The bypass qualifier is cleared only where the PLLs were booted bypassed.
fn with_bypass(bypassed: bool, word: u32) -> u32
    ensures { result ≡ with_bypass bypassed word }
{
    let word = if bypassed {
        set_field(word, registers::BYPASS_QUAL, 0)
    } else {
        word
    };
    let word = set_field(word, registers::BYPASS_FORCE, 1);
    set_field(word, registers::PWRDWN, 0)
}

// The row that is due once so many are done, where `word` is the word last read or written. The place is a number and no enum, since a
// host's run carries it through C.
pub fn row(plan: PllPlan, at: u8, word: u32) -> Due
    ensures { IsDue (drop at (sequence plan)) word result }
{
    let PllRegisters { ctrl, cfg, .. } = PllRegisters::from(plan.pll);
    match at {
        0 => Due::Read(ctrl),
        1 => Due::Write(
            ctrl,
            set_field(word, registers::FDIV, u32::from(plan.config.fdiv)),
        ),
        2 => Due::Read(cfg),
        3 => Due::Write(cfg, with_settings(plan.config, word)),
        4 => Due::Read(ctrl),
        5 => Due::Write(ctrl, with_bypass(plan.bypassed, word)),
        6 => Due::Read(ctrl),
        7 => Due::Write(ctrl, set_field(word, registers::RESET, 1)),
        8 => Due::Write(ctrl, set_field(word, registers::RESET, 0)),
        9 => Due::Poll(registers::PLL_STATUS as u32),
        10 => Due::Read(ctrl),
        11 => Due::Write(ctrl, set_field(word, registers::BYPASS_FORCE, 0)),
        _ => Due::End,
    }
}
