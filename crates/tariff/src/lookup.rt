// The tariff, and the lookup in it.
ghost use Rattle.std.specs.Prelude.{◌≡◌};
ghost use Rattle.tariff.specs.Tariff.{full_charge, tariff, InOrder};

use crate::Band;

const BANDS: usize = 6;

// Six limits in cm, in rising order, and their charges in pence.
const TARIFF: [Band; BANDS] = [
    Band {
        limit: 500,
        charge: 310,
    },
    Band {
        limit: 800,
        charge: 460,
    },
    Band {
        limit: 1200,
        charge: 690,
    },
    Band {
        limit: 1600,
        charge: 943,
    },
    Band {
        limit: 2000,
        charge: 1231,
    },
    Band {
        limit: 2500,
        charge: 1587,
    },
];

// The charge of the first band whose limit the length does not exceed; 0 where there is none.
pub(crate) fn full_charge(length: u32) -> u32
    ensures { result ≡ full_charge tariff length }
{
    for band in &TARIFF {
        if length <= band.limit {
            return band.charge;
        }
    }
    0
}

// The limits rise, by one test over the whole tariff; so each band's charge is that of the lengths above the limit before it and up to its own.
pub fn bands_in_order()
    ensures { InOrder tariff }
{}
