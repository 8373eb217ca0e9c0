// What the box answers: the refusals with their numbers. An entry point that writes answers how many bytes it wrote or why it refused, a
// `Result<usize, Refusal>`; one that judges answers a verdict, a `Result<(), Refusal>`: go on, or the first reason to refuse.
// The numbers are those of the table "Numbers the box gives back"; 8 and 17 to 19 are not in it.
#![tactic(auto)]

ghost use Rattle.std.specs.Prelude.{◌≡◌};
ghost use Rattle.answer.specs.Number.{number_of, answer_number, answer_length};

// A reason to refuse, one for each number.
#[derive(Clone, Copy, Debug, PartialEq, Eq)]
pub enum Refusal {
    // 1: a capsule, or a number read by itself, is not all there.
    Incomplete,
    // 2: a capsule value over the limit.
    TooLong,
    // 3: an address entry breaks its layout, or a number to be written is 2^62 or more.
    BadAddress,
    // 4: a route range breaks its layout, or starts after its end.
    BadRange,
    // 5: route ranges out of order.
    RangesOutOfOrder,
    // 6: an empty address request, or a Request ID that is zero or repeated.
    BadRequestId,
    // 7: a sound list of too many elements.
    TooMany,
    // 9: a state handed in breaks its own rules.
    BrokenState,
    // 10: a packet of bad form.
    BadForm,
    // 11: a hop count of 0 or 1, on sending.
    HopLimit,
    // 12: no grant lets the packet pass.
    NotGranted,
    // 13: a Context ID that no template has.
    UnknownContext,
    // 14: a datagram that ends too early.
    CutDatagram,
    // 15: a packet over the limit.
    PacketTooLong,
    // 16: the lent output is too small.
    NoRoom,
    // 20: not a plan file.
    PlanMark,
    // 21: a plan file of another version.
    PlanVersion,
    // 22: a plan file that ends too early or too late.
    PlanCut,
    // 23: a segment, a checksum pair, a count or a flag breaks its rule.
    PlanRule,
    // 24: a number of a plan file that is not in its shortest form.
    PlanNotShortest,
    // 25: a Context ID breaks its rule, or too many templates.
    PlanContext,
}

impl Refusal {
    pub fn number(self) -> u8
        ensures { result ≡ number_of self }
    {
        match self {
            Refusal::Incomplete => 1,
            Refusal::TooLong => 2,
            Refusal::BadAddress => 3,
            Refusal::BadRange => 4,
            Refusal::RangesOutOfOrder => 5,
            Refusal::BadRequestId => 6,
            Refusal::TooMany => 7,
            Refusal::BrokenState => 9,
            Refusal::BadForm => 10,
            Refusal::HopLimit => 11,
            Refusal::NotGranted => 12,
            Refusal::UnknownContext => 13,
            Refusal::CutDatagram => 14,
            Refusal::PacketTooLong => 15,
            Refusal::NoRoom => 16,
            Refusal::PlanMark => 20,
            Refusal::PlanVersion => 21,
            Refusal::PlanCut => 22,
            Refusal::PlanRule => 23,
            Refusal::PlanNotShortest => 24,
            Refusal::PlanContext => 25,
        }
    }
}

// The number of an answer: 0 where it is good, and else the refusal's number.
pub fn number_of<T>(answer: &Result<T, Refusal>) -> u8
    ensures { result ≡ answer_number answer.now }
{
    match answer {
        Ok(_) => 0,
        Err(why) => why.number(),
    }
}

// How many bytes an entry point wrote: none on a refusal.
pub fn length_of(answer: Result<usize, Refusal>) -> usize
    ensures { result ≡ answer_length answer }
{
    answer.unwrap_or(0)
}
