// Refusals by document 01's numbers and values.
#![tactic(auto)]

ghost use Rattle.std.specs.Prelude.{ℕ, ◌≡◌};
ghost use Rattle.refusal.specs.Refusal.{refusal_of};
ghost use Rattle.refusal.specs.Refusal.{refused_by};
ghost use Rattle.refusals.specs.Told.{refused_as, sited_as};

use refusal::{Fault, Refusal, Site};

// A refusal's number, how many values come with it, and the values, 0 where there are fewer. Numbers on purpose: the enum is Refusal, and this is what document 01's table and those who print or store a refusal write of it.
#[derive(Clone, Copy)]
pub struct Numbers {
    pub number: u8,
    pub values: usize,
    pub first: usize,
    pub second: usize,
}

// With device place and adapter number.
fn sited(number: u8, site: Site) -> Numbers
    ensures { result ≡ sited_as number site }
{
    Numbers {
        number,
        values: 2,
        first: site.place,
        second: site.adapter as usize,
    }
}

fn of_fault(fault: Fault) -> Numbers
    ensures { refused_as {A = ℕ} result ≡ refusal_of fault }
{
    match fault {
        Fault::FewRegisters(site) => sited(5, site),
        Fault::NoField(site) => sited(6, site),
        Fault::BadAdapters(place) => Numbers {
            number: 7,
            values: 2,
            first: place,
            second: 0,
        },
        Fault::GenTOffset(site) => sited(8, site),
        Fault::NoPathDump(site) => sited(9, site),
        Fault::NoOutAdapter(site) => sited(10, site),
        Fault::NoParentRoute(site) => sited(11, site),
        Fault::NoDownstreamRoute(site) => sited(12, site),
        Fault::Endless => Numbers {
            number: 13,
            values: 0,
            first: 0,
            second: 0,
        },
    }
}

// A refusal's number and values.
pub fn numbers_of(refusal: Refusal) -> Numbers
    ensures { refused_as {A = ℕ} result ≡ refused_by refusal }
{
    match refusal {
        Refusal::NotAscii(place) => Numbers {
            number: 1,
            values: 1,
            first: place,
            second: 0,
        },
        Refusal::Short(need) => Numbers {
            number: 2,
            values: 1,
            first: need,
            second: 0,
        },
        Refusal::Descriptions(place) => Numbers {
            number: 3,
            values: 1,
            first: place,
            second: 0,
        },
        Refusal::Survey(place) => Numbers {
            number: 4,
            values: 1,
            first: place,
            second: 0,
        },
        Refusal::NoField => Numbers {
            number: 6,
            values: 0,
            first: 0,
            second: 0,
        },
        Refusal::Fault(fault) => of_fault(fault),
        Refusal::Missing => Numbers {
            number: 14,
            values: 0,
            first: 0,
            second: 0,
        },
    }
}
