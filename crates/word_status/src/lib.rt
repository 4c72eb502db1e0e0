// The status word and the interrupt save word from their flags.
#![tactic(auto)]

ghost use Rattle.std.specs.Prelude.{◌≡◌};
ghost use Rattle.word_status.specs.Status.{status_word, save_word};

#[derive(Clone, Copy)]
pub struct Flags {
    pub cie: bool,
    pub ip: bool,
    pub ca: bool,
    pub nac: bool,
    pub wfb: bool,
    pub sip: bool,
    pub masked: bool,
    pub line: bool,
    pub mch: bool,
    pub mcl: bool,
    pub mc: bool,
    pub eop: bool,
    pub tc: bool,
}

impl Flags {
    pub fn status(self) -> u16
        ensures { result ≡ status_word self }
    {
        facts::worth(self.cie, 0x8000)
            + facts::worth(self.ip, 0x2000)
            + facts::worth(self.ca, 0x1000)
            + facts::worth(self.nac, 0x800)
            + facts::worth(self.wfb, 0x400)
            + facts::worth(self.sip, 0x200)
            + facts::worth(self.masked, 0x40)
            + facts::worth(self.line, 0x20)
            + facts::worth(self.mch, 0x10)
            + facts::worth(self.mcl, 8)
            + facts::worth(self.mc, 4)
            + facts::worth(self.eop, 2)
            + facts::worth(self.tc, 1)
    }

    // What is saved at an interrupt, for the second channel or the first.
    pub fn save(self, second: bool, vector: u8) -> u16
        ensures { result ≡ save_word second vector self }
    {
        facts::worth(second, 0x8000)
            + facts::worth(self.line, 0x4000)
            + facts::worth(self.mch, 0x2000)
            + facts::worth(self.mcl, 0x1000)
            + facts::worth(self.ca, 0x800)
            + facts::worth(self.mc, 0x400)
            + facts::worth(self.eop, 0x200)
            + facts::worth(self.tc, 0x100)
            + (vector as u16)
    }
}
