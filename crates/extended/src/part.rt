// What a pair is, by its first byte.
ghost use Rattle.std.specs.Prelude.{◌≡◌};
ghost use Rattle.extended.specs.Part.{part_of};

use crate::class::Class;

// `Other` is text or contents.
#[derive(Clone, Copy)]
pub(crate) enum Part {
    Command,
    Start(Class),
    Continuation(Class),
    End,
    Other,
}

#[tactic(auto, unfolding(crate::specs::Part::part_of))]
pub(crate) fn part_of(first: u8) -> Part
    ensures { result ≡ part_of first }
{
    match first {
        0x01 => Part::Start(Class::Current),
        0x02 => Part::Continuation(Class::Current),
        0x03 => Part::Start(Class::Future),
        0x04 => Part::Continuation(Class::Future),
        0x05 => Part::Start(Class::ChannelInformation),
        0x06 => Part::Continuation(Class::ChannelInformation),
        0x07 => Part::Start(Class::Miscellaneous),
        0x08 => Part::Continuation(Class::Miscellaneous),
        0x09 => Part::Start(Class::PublicService),
        0x0A => Part::Continuation(Class::PublicService),
        0x0B => Part::Start(Class::Reserved),
        0x0C => Part::Continuation(Class::Reserved),
        0x0D => Part::Start(Class::Private),
        0x0E => Part::Continuation(Class::Private),
        0x0F => Part::End,
        0x10..=0x1F => Part::Command,
        _ => Part::Other,
    }
}
