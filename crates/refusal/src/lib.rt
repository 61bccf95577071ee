// What a call is turned back with. The outer enum names what is at fault: the card, the plan or
// the call. The inner enums name the ground, and hold the place of the command byte at fault.
#![tactic(auto)]

ghost use Rattle.std.specs.Prelude.{◌≡◌};
ghost use Rattle.refusal.specs.declared.Refusal.TheVariants.{Card, Plan, Call};
ghost use Rattle.refusal.specs.Refused.{refusal_of, whose_of, number_of, place_of};

#[derive(Clone, Copy)]
pub enum CardGround {
    // More bytes than a card may have.
    TooLong,
    // An unknown command, or a command or its operands cut off.
    Cut(usize),
    // Bytes follow the end command.
    Trailing(usize),
    // The first command is not 01, or 01 stands again.
    Head(usize),
    // n, f or a server is out of range, or a link leads from a server to itself.
    Range(usize),
}

#[derive(Clone, Copy)]
pub enum PlanGround {
    // More bytes than a plan may have.
    TooLong,
    // An unknown command, or a command or its operands cut off.
    Cut(usize),
    // Bytes follow the end command.
    Trailing(usize),
    // The command, or the F and A of a block, is not the one due.
    NotDue(usize),
    // S is empty or not within V−F.
    Quorum(usize),
    // A route breaks a rule on its own.
    Route(usize),
    // A route shares a server other than the receiver with an earlier one to that receiver.
    Shared(usize),
    // k is not the one due, or N breaks its rule.
    Reporters(usize),
}

#[derive(Clone, Copy)]
pub enum CallGround {
    // The inputs are not n bytes of 0 or 1.
    Inputs,
    // The faulty set has more than f servers, or one that is not in V.
    FaultSet,
    // The lent buffer has no room for what the call writes.
    Buffer,
    // Some link has no return.
    OneWay,
    // An ask while one is open, or a commit with none open.
    OutOfTurn,
    // The network has a bad split, so no plan is accepted for it.
    BadSplit,
    // The lent buffer is shorter than the plan to be written.
    PlanBuffer,
}

#[derive(Clone, Copy)]
pub enum Refusal {
    Card(CardGround),
    Plan(PlanGround),
    Call(CallGround),
}

// A refusal that `?` makes of a card's ground.
impl From<CardGround> for Refusal {
    ghost from_gives = { λ g r. r ≡ Card g };

    fn from(g: CardGround) -> Refusal {
        Refusal::Card(g)
    }
}

impl From<PlanGround> for Refusal {
    ghost from_gives = { λ g r. r ≡ Plan g };

    fn from(g: PlanGround) -> Refusal {
        Refusal::Plan(g)
    }
}

impl From<CallGround> for Refusal {
    ghost from_gives = { λ g r. r ≡ Call g };

    fn from(g: CallGround) -> Refusal {
        Refusal::Call(g)
    }
}

// Kept: the numbers are written out here and below, since they are those of the table of FORMATS.md and a case
// that holds a place has no number of its own to take.
impl CardGround {
    fn number(self) -> u8
        ensures { result ≡ number_of (refusal_of (Refusal.Card self)) }
    {
        match self {
            CardGround::TooLong => 1,
            CardGround::Cut(_) => 2,
            CardGround::Trailing(_) => 3,
            CardGround::Head(_) => 4,
            CardGround::Range(_) => 5,
        }
    }

    fn place(self) -> usize
        ensures { result ≡ place_of (refusal_of (Refusal.Card self)) }
    {
        match self {
            CardGround::TooLong => 0,
            CardGround::Cut(at)
            | CardGround::Trailing(at)
            | CardGround::Head(at)
            | CardGround::Range(at) => at,
        }
    }
}

impl PlanGround {
    fn number(self) -> u8
        ensures { result ≡ number_of (refusal_of (Refusal.Plan self)) }
    {
        match self {
            PlanGround::TooLong => 1,
            PlanGround::Cut(_) => 2,
            PlanGround::Trailing(_) => 3,
            PlanGround::NotDue(_) => 7,
            PlanGround::Quorum(_) => 8,
            PlanGround::Route(_) => 9,
            PlanGround::Shared(_) => 10,
            PlanGround::Reporters(_) => 11,
        }
    }

    fn place(self) -> usize
        ensures { result ≡ place_of (refusal_of (Refusal.Plan self)) }
    {
        match self {
            PlanGround::TooLong => 0,
            PlanGround::Cut(at)
            | PlanGround::Trailing(at)
            | PlanGround::NotDue(at)
            | PlanGround::Quorum(at)
            | PlanGround::Route(at)
            | PlanGround::Shared(at)
            | PlanGround::Reporters(at) => at,
        }
    }
}

impl CallGround {
    fn number(self) -> u8
        ensures { result ≡ number_of (refusal_of (Refusal.Call self)) }
    {
        match self {
            CallGround::Inputs => 12,
            CallGround::FaultSet => 13,
            CallGround::Buffer => 14,
            CallGround::OneWay => 15,
            CallGround::OutOfTurn => 16,
            CallGround::BadSplit => 17,
            CallGround::PlanBuffer => 18,
        }
    }
}

impl Refusal {
    // What is at fault: 0 the card, 1 the plan, 2 the call.
    // Kept: a number, since it is a word of the C interface (`refused_words`); the library matches on the enum.
    pub fn whose(self) -> u8
        ensures { result ≡ whose_of (refusal_of self) }
    {
        match self {
            Refusal::Card(_) => 0,
            Refusal::Plan(_) => 1,
            Refusal::Call(_) => 2,
        }
    }

    // The refusal's number, 1 to 18 without 6.
    pub fn number(self) -> u8
        ensures { result ≡ number_of (refusal_of self) }
    {
        match self {
            Refusal::Card(g) => g.number(),
            Refusal::Plan(g) => g.number(),
            Refusal::Call(g) => g.number(),
        }
    }

    // The place of the command byte at fault; 0 where the call is at fault, which has no place.
    pub fn place(self) -> usize
        ensures { result ≡ place_of (refusal_of self) }
    {
        match self {
            Refusal::Card(g) => g.place(),
            Refusal::Plan(g) => g.place(),
            Refusal::Call(_) => 0,
        }
    }
}
