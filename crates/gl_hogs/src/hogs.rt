//! The lines that a board itself holds.
ghost use Rattle.std.specs.Prelude.{◌≡◌, length};
ghost use Rattle.gl_hogs.specs.Hogs.{hog_settings, hogged_descs, hogged_bank};

use gl_bank::Bank;
use gl_base::{Settings, flag};
use gl_desc::{Descs, Hog, HogWay};

/// How a hogged line is configured.
fn hog_settings(way: HogWay) -> Settings
    ensures { result ≡ hog_settings way }
{
    let (flags, value) = match way {
        HogWay::Input => (1 << flag::INPUT, false),
        HogWay::High => (1 << flag::OUTPUT, true),
        HogWay::Low => (1 << flag::OUTPUT, false),
    };
    Settings {
        flags,
        value,
        debounce_us: 0,
    }
}

/// Holds the lines of these hogs, in order: each shows its hog's name as its consumer, and is an input, or
/// an output that is driven high or low. An offset past the lines changes nothing, and no memory is taken.
#[tactic(auto, using(crate::proofs::Lengths::as_many_descs, crate::proofs::Lengths::as_many_levels))]
pub fn apply(descs: &mut Descs, bank: &mut Bank, hogs: &[Hog])
    ensures descs { descs.new ≡ hogged_descs hogs.now descs.old }
    ensures bank { bank.new ≡ hogged_bank hogs.now bank.old }
    ensures as_many_descs { length descs.new ≡ length descs.old }
    ensures as_many_levels { length bank.new ≡ length bank.old }
{
    for hog in hogs {
        descs.hog(hog.offset, hog.name);
        bank.apply(hog.offset, hog_settings(hog.way));
    }
}
