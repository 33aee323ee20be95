// The desk's table as the code has it: specs/Table.antt has the same rows, with their lines of help.
ghost use Rattle.std.specs.Prelude.{MatchResult};
ghost use Rattle.desk_requests.specs.Found.{Found, Unknown};

use desk_calls::Call;
use shapes::{BadWord, Fault};

// What a request says: what a call tells, printed by a form, or what has a writer of its own.
#[derive(Clone, Copy)]
pub enum Saying {
    UartList,
    PllSeq,
    Help,
    Told(Call, &'static [u8]),
}

#[derive(Clone, Copy)]
pub struct Row {
    pub name: &'static [u8],
    pub shape: &'static [u8],
    pub says: Saying,
}

static TABLE: [Row; 16] = [
    Row {
        name: b"uart-list",
        shape: b"nn",
        says: Saying::UartList,
    },
    Row {
        name: b"pll-seq",
        shape: b"pfbbbhhw",
        says: Saying::PllSeq,
    },
    Row {
        name: b"help",
        shape: b"",
        says: Saying::Help,
    },
    Row {
        name: b"two-stage",
        shape: b"nnn",
        says: Saying::Told(Call::TwoStage, b"#_#"),
    },
    Row {
        name: b"two-stage-frequency",
        shape: b"nnn",
        says: Saying::Told(Call::TwoStageFrequency, b"#"),
    },
    Row {
        name: b"i2c",
        shape: b"ns",
        says: Saying::Told(Call::I2c, b"#_#"),
    },
    Row {
        name: b"i2c-speed",
        shape: b"nbb",
        says: Saying::Told(Call::I2cSpeed, b"#"),
    },
    Row {
        name: b"ttc",
        shape: b"nn",
        says: Saying::Told(Call::Ttc, b"?_#"),
    },
    Row {
        name: b"pll-target",
        shape: b"nn",
        says: Saying::Told(Call::PllTarget, b"#_#_#_#"),
    },
    Row {
        name: b"pll-mul",
        shape: b"n",
        says: Saying::Told(Call::PllMul, b"#_#_#_#"),
    },
    Row {
        name: b"uart",
        shape: b"nn",
        says: Saying::Told(Call::Uart, b"#_#_$"),
    },
    Row {
        name: b"cpu-init",
        shape: b"nfn",
        says: Saying::Told(Call::CpuInit, b"#_#_#_#"),
    },
    Row {
        name: b"ddr-init",
        shape: b"nnn",
        says: Saying::Told(Call::DdrInit, b"#_#"),
    },
    Row {
        name: b"clocks",
        shape: b"nw",
        says: Saying::Told(
            Call::Clocks,
            b"ok_#_#_#_#_#_#_#_#_#_#_#_#_#_#_#_#_#_#_#_#_~_#_#_#_#",
        ),
    },
    Row {
        name: b"gem",
        shape: b"fnw",
        says: Saying::Told(Call::Gem, b"#"),
    },
    Row {
        name: b"ratios",
        shape: b"nw",
        says: Saying::Told(
            Call::Ratios,
            b"#:#_#:#_#:#_#:#_#:#_#:#_#:#_#:#_#:#_#:#_#:#_#:#_#:#_#:#_#:#_#:#",
        ),
    },
];

// The row of a name, or what is wrong with it as a line's first word.
pub fn find(name: &[u8]) -> Result<Row, BadWord>
    ensures { MatchResult result (Found name.now) (Unknown name.now) }
{
    if name.is_empty() {
        return Err(BadWord {
            word: 1,
            fault: Fault::Empty,
        });
    }
    let row = TABLE.iter().find(|row| row.name == name).copied();
    row.ok_or(BadWord {
        word: 1,
        fault: Fault::NoSuchName,
    })
}
