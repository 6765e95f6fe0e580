// The machine: the request and the answer as records, and the refusals. What a request does is defined in specs/.

#![tactic(auto)]

ghost use Rattle.std.specs.Prelude.{◌≡◌};
ghost use Rattle.machine.specs.Refusal.{number_of, said};
ghost use Rattle.machine.specs.State.{answer_of};

// Nine whole numbers, 0 to 65,535.
#[derive(Clone, Copy)]
pub struct Request {
    pub pad: u16,
    pub program: u16,
    pub op: u16,
    pub ticket: u16,
    pub topad: u16,
    pub toprogram: u16,
    pub first: u16,
    pub count: u16,
    pub rights: u16,
}

// Result (0 or a refusal), the asker's new number, the recipient's new number; 0 where there is none.
#[derive(Clone, Copy)]
pub struct Answer {
    pub result: u16,
    pub ticket: u16,
    pub recipient: u16,
}

impl Answer {
    // Accepted, with the new numbers of asker and recipient.
    pub fn accepted(ticket: u16, recipient: u16) -> Answer
        ensures { result ≡ answer_of 0 ticket recipient }
    {
        Answer {
            result: 0,
            ticket,
            recipient,
        }
    }

    pub fn refused(refusal: Refusal) -> Answer
        ensures { result ≡ answer_of (number_of refusal) 0 0 }
    {
        Answer {
            result: refusal.into(),
            ticket: 0,
            recipient: 0,
        }
    }
}

// Why a request, a text or a call of a host is refused, in the order of the papers' numbers, 1 to 18.
#[derive(Clone, Copy, Debug, PartialEq, Eq)]
pub enum Refusal {
    NoProgram,
    NoOperation,
    Field,
    NoTicket,
    WrongKind,
    Beyond,
    RightLacking,
    ToOneself,
    NoPlace,
    NoNumber,
    NoRun,
    NoEntry,
    Length,
    NotInOrder,
    OtherForm,
    Scratch,
    TooShort,
    BadText,
}

impl From<Refusal> for u16 {
    ghost from_gives = { λ refusal number. number ≡ number_of refusal };

    fn from(refusal: Refusal) -> u16 {
        match refusal {
            Refusal::NoProgram => 1,
            Refusal::NoOperation => 2,
            Refusal::Field => 3,
            Refusal::NoTicket => 4,
            Refusal::WrongKind => 5,
            Refusal::Beyond => 6,
            Refusal::RightLacking => 7,
            Refusal::ToOneself => 8,
            Refusal::NoPlace => 9,
            Refusal::NoNumber => 10,
            Refusal::NoRun => 11,
            Refusal::NoEntry => 12,
            Refusal::Length => 13,
            Refusal::NotInOrder => 14,
            Refusal::OtherForm => 15,
            Refusal::Scratch => 16,
            Refusal::TooShort => 17,
            Refusal::BadText => 18,
        }
    }
}

// What a call says: 0, or its refusal's number.
pub fn number(done: Result<(), Refusal>) -> u16
    ensures { result ≡ said done }
{
    match done {
        Ok(()) => 0,
        Err(refusal) => refusal.into(),
    }
}
