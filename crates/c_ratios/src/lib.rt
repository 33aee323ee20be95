// The exact ratios of the four PL clocks, told as numbers.
#![tactic(auto)]

ghost use Rattle.std.specs.Prelude.{◌≡◌};
ghost use Rattle.std.specs.List.{flat_map};
ghost use Rattle.handing.specs.Handed.{Handed, returned};
ghost use Rattle.c_ratios.specs.Tells.{RatiosTells, row_words, table_words};

use handing::{put, room};
use ratio_table::Ratio;
use ratios::ratios_check;
use refusals::Refusal;

// Numerator and denominator of each ratio of a row.
fn row_words(row: [Ratio; 4]) -> [u64; 8]
    ensures { result ≡ row_words row }
{
    let [a, b, c, d] = row;
    [a.num, a.den, b.num, b.den, c.num, c.den, d.num, d.den]
}

// The rows of a table one after the other.
fn table_words(table: [[Ratio; 4]; 4]) -> [[u64; 8]; 4]
    ensures { flat_map (λ row. row) result ≡ table_words table }
{
    table.map(row_words)
}

// Thirty-two numbers, a row of the table after the other.
pub fn ratios(crystal: u32, image: &[u32], out: &mut [u64]) -> Result<(), Refusal>
    ensures { Handed 32 (RatiosTells crystal image.now) out.old (returned result) out.new }
{
    room(out.len(), 32)?;
    let table = ratios_check(crystal, image)?;
    put(out, table_words(table).as_flattened())
}
