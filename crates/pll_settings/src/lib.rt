// The settings of a PLL, by its multiplier or by the output clock that is wanted. The numbers are table 25-6 of the manual.
#![tactic(auto)]

ghost use Rattle.std.specs.Prelude.{◌≡◌};
ghost use Rattle.pll_settings.specs.Settings.{told, refusal_of, Right, RightTarget};

use refusals::Refusal;

pub const PLL_MUL_MIN: u32 = 13;

pub const PLL_MUL_MAX: u32 = 66;

// What a PLL's control and configuration words are given. A caller may put any numbers in here; only the sequence that writes
// them judges whether they fit their fields.
#[derive(Clone, Copy, PartialEq, Eq)]
pub struct PllConfig {
    pub fdiv: u8,
    pub charge_pump: u8,
    pub loop_resistor: u8,
    pub lock_count: u16,
}

// Why there is no setting. A multiplier that is out of range is carried.
#[derive(Clone, Copy, PartialEq, Eq)]
pub enum PllSettingError {
    ZeroInput,
    MulRange(u32),
}

impl From<PllSettingError> for Refusal {
    ghost from_gives = { λ e r. r ≡ refusal_of e };

    fn from(e: PllSettingError) -> Refusal {
        match e {
            PllSettingError::ZeroInput => Refusal::ZeroInput,
            PllSettingError::MulRange(multiplier) => Refusal::MulRange(multiplier),
        }
    }
}

// One row for each multiplier: the multiplier, charge pump, loop resistor, lock count. A static lies in memory once, and one read takes a
// row out of it; a constant would be laid out anew at each call.
// Tuples, as the manual has a row on one line.
static ROWS: [(u8, u8, u8, u16); 54] = [
    (13, 2, 6, 750),
    (14, 2, 6, 700),
    (15, 2, 6, 650),
    (16, 2, 10, 625),
    (17, 2, 10, 575),
    (18, 2, 10, 550),
    (19, 2, 10, 525),
    (20, 2, 12, 500),
    (21, 2, 12, 475),
    (22, 2, 12, 450),
    (23, 2, 12, 425),
    (24, 2, 12, 400),
    (25, 2, 12, 400),
    (26, 2, 12, 375),
    (27, 2, 12, 350),
    (28, 2, 12, 350),
    (29, 2, 12, 325),
    (30, 2, 12, 325),
    (31, 2, 2, 300),
    (32, 2, 2, 300),
    (33, 2, 2, 300),
    (34, 2, 2, 275),
    (35, 2, 2, 275),
    (36, 2, 2, 275),
    (37, 2, 2, 250),
    (38, 2, 2, 250),
    (39, 2, 2, 250),
    (40, 2, 2, 250),
    (41, 3, 12, 250),
    (42, 3, 12, 250),
    (43, 3, 12, 250),
    (44, 3, 12, 250),
    (45, 3, 12, 250),
    (46, 3, 12, 250),
    (47, 3, 12, 250),
    (48, 2, 4, 250),
    (49, 2, 4, 250),
    (50, 2, 4, 250),
    (51, 2, 4, 250),
    (52, 2, 4, 250),
    (53, 2, 4, 250),
    (54, 2, 4, 250),
    (55, 2, 4, 250),
    (56, 2, 4, 250),
    (57, 2, 4, 250),
    (58, 2, 4, 250),
    (59, 2, 4, 250),
    (60, 2, 4, 250),
    (61, 2, 4, 250),
    (62, 2, 4, 250),
    (63, 2, 4, 250),
    (64, 2, 4, 250),
    (65, 2, 4, 250),
    (66, 2, 4, 250),
];

impl PllConfig {
    #[tactic(auto, using(crate::proofs::Entries::outside, crate::proofs::Entries::at_its_place, std::proofs::lemmas::Grind::common_steps))]
    pub fn new(pll_mul: u32) -> Result<PllConfig, PllSettingError>
        ensures { Right pll_mul (told result) }
    {
        if !(PLL_MUL_MIN..=PLL_MUL_MAX).contains(&pll_mul) {
            return Err(PllSettingError::MulRange(pll_mul));
        }
        let (fdiv, charge_pump, loop_resistor, lock_count) = ROWS[(pll_mul - PLL_MUL_MIN) as usize];
        Ok(PllConfig {
            fdiv,
            charge_pump,
            loop_resistor,
            lock_count,
        })
    }

    // The multiplier is the target over the crystal.
    pub fn new_from_target_clock(ps_clk: u32, target_clk: u32) -> Result<PllConfig, PllSettingError>
        ensures { RightTarget ps_clk target_clk (told result) }
    {
        let pll_mul = target_clk
            .checked_div(ps_clk)
            .ok_or(PllSettingError::ZeroInput)?;
        PllConfig::new(pll_mul)
    }
}
