// Where a fault was met: a device by its place in the survey and an adapter by its number; 0 for the router itself and an xdomain, and the missing number for a missing out adapter.
#![tactic(auto)]

ghost use Rattle.std.specs.Prelude.{◌≡◌};
ghost use Rattle.refusal.specs.declared.Refusal.TheVariants as refusal;
ghost use Rattle.refusal.specs.declared.WalkError.TheVariants as walk;
ghost use Rattle.refusal.specs.Refusal.{of_walk};

#[derive(Clone, Copy)]
pub struct Site {
    pub place: usize,
    pub adapter: u8,
}

// What loading a survey, a walk and a discovery refuse. specs/Refusal.antt gives each its number and values.
#[derive(Clone, Copy)]
pub enum Fault {
    // Registers were read, but a router has none or an adapter fewer than three.
    FewRegisters(Site),
    // A field is wanted of a named register that lacks it, a flag isn't one bit, or a flag is wanted of a nameless register.
    NoField(Site),
    // Adapters under a device that isn't a router or has no ROUTER_CS_1, or not exactly 1 to Max Adapter in order. The device's place alone.
    BadAdapters(usize),
    // A Gen T offset passes 65,535.
    GenTOffset(Site),
    // The path dump is missing and the adapter is no lane 1.
    NoPathDump(Site),
    // A hop's out adapter isn't on its router.
    NoOutAdapter(Site),
    // A parent route is needed at depth 0.
    NoParentRoute(Site),
    // A lane at depth 8 needs a downstream route.
    NoDownstreamRoute(Site),
    // A walk never ends.
    Endless,
}

// What a walk and a discovery on tables refuse, before anything is written.
#[derive(Clone, Copy)]
pub enum WalkError {
    Fault(Fault),
    // There is no such device or adapter.
    Missing,
}

impl From<Fault> for WalkError {
    ghost from_gives = { λ f r. r ≡ walk.Fault f };

    fn from(fault: Fault) -> WalkError {
        WalkError::Fault(fault)
    }
}

// What a call refuses. specs/Refusal.antt gives each its number and values.
#[derive(Clone, Copy)]
pub enum Refusal {
    // A byte above 127, by its place.
    NotAscii(usize),
    // A buffer that is too short, by what is needed, or a text that is too long, by its length.
    Short(usize),
    // Description words that are not well formed, by the head place of the first group that breaks the rules; 16,384 where there are more words than that.
    Descriptions(usize),
    // Survey words that are not well formed, likewise, or a text that makes none, by the words made before the line that is wrong.
    Survey(usize),
    // A field that is wanted where no register group stands or where it lacks the field: no device goes with it.
    NoField,
    // What loading, a walk or a discovery met.
    Fault(Fault),
    // There is no such device or adapter.
    Missing,
}

impl From<Fault> for Refusal {
    ghost from_gives = { λ f r. r ≡ refusal.Fault f };

    fn from(fault: Fault) -> Refusal {
        Refusal::Fault(fault)
    }
}

impl From<WalkError> for Refusal {
    ghost from_gives = { λ e r. r ≡ of_walk e };

    fn from(error: WalkError) -> Refusal {
        match error {
            WalkError::Fault(fault) => Refusal::Fault(fault),
            WalkError::Missing => Refusal::Missing,
        }
    }
}

// Why nothing is known of a field or flag that is wanted of a register: the register is nameless, or lacks the field, or the flag isn't one bit.
#[derive(Clone, Copy)]
pub enum FieldError {
    NoField,
}
