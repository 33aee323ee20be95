// The prescaler and the interval ticks of the triple timer counter (TTC) for a wanted frequency.
#![tactic(auto)]

ghost use Rattle.std.specs.Prelude.{◌≡◌};
ghost use Rattle.ttc.specs.Interval.{refusal_of, Right, told};

use refusals::Refusal;

#[derive(Clone, Copy, PartialEq, Eq)]
pub struct Setting {
    // What goes into the prescaler field: nothing, with the prescaler off, or a value p, which divides the clock by 2^(p+1).
    pub prescaler_reg: Option<u8>,
    pub interval_ticks: u16,
}

// The wanted frequency is 0.
#[derive(Clone, Copy, PartialEq, Eq)]
pub struct ZeroTarget;

impl From<ZeroTarget> for Refusal {
    ghost from_gives = { λ e r. r ≡ refusal_of e };

    fn from(_e: ZeroTarget) -> Refusal {
        Refusal::ZeroTarget
    }
}

// A number of 32 bits with z leading zeros keeps its top 16 when it is halved 16 - z times, and no fewer halvings make it fit.
#[tactic(auto, using(crate::specs::Interval::zero_target, crate::proofs::Laws::unscaled, crate::proofs::Laws::scaled, crate::proofs::Laws::few_zeros, crate::proofs::Laws::top))]
pub fn calc_prescaler_reg_and_interval_ticks(ref_clk: u32, freq: u32) -> Result<Setting, ZeroTarget>
    ensures { Right ref_clk freq (told result) }
{
    let Some(whole) = ref_clk.checked_div(freq) else {
        return Err(ZeroTarget);
    };
    // The test says the bound in so many words, which a try_from would not; the casts are proved to fit.
    if whole <= 65535 {
        return Ok(Setting {
            prescaler_reg: None,
            interval_ticks: whole as u16,
        });
    }
    let k = 16 - whole.leading_zeros();
    Ok(Setting {
        prescaler_reg: Some((k - 1) as u8),
        interval_ticks: (whole >> k) as u16,
    })
}
