// The seven classes of extended data.
ghost use Rattle.std.specs.Prelude.{◌≡◌};
ghost use Rattle.extended.specs.Class.{class_number, start_byte};

#[derive(Clone, Copy)]
pub enum Class {
    Current,
    Future,
    ChannelInformation,
    Miscellaneous,
    PublicService,
    Reserved,
    Private,
}

impl Class {
    // 1 to 7.
    pub fn number(self) -> u8
        ensures { result ≡ class_number self }
    {
        self as u8 + 1
    }

    // The first byte of a packet's start: 01, 03, .. 0D.
    #[tactic(auto, using(crate::proofs::Classes::start_by_number))]
    pub fn start_byte(self) -> u8
        ensures { result ≡ start_byte self }
    {
        2 * self.number() - 1
    }
}
