// What a slot holds: the record of an input or of an output, which is its index's entry (live) or was overtaken by a newer one (hidden), or none.
ghost use Rattle.std.specs.Prelude.{◌≡◌};
ghost use Rattle.words.specs.Lists.{pick};
ghost use Rattle.boxes.specs.Kinds.{kind_number, kind_of};
ghost use Rattle.boxes.specs.Layout.{out_kind};

#[derive(Clone, Copy, PartialEq, Eq)]
pub(crate) enum Kind {
    LiveInput,
    LiveOutput,
    Gone,
    HiddenInput,
    HiddenOutput,
}

impl Kind {
    pub(crate) fn is_output(self) -> bool
        ensures { result ≡ out_kind (kind_number self) }
    {
        match self {
            Kind::LiveInput | Kind::HiddenInput => false,
            _ => true,
        }
    }

    pub(crate) fn live(out: bool) -> Kind
        ensures { kind_number result ≡ pick out 1 0 }
    {
        if out {
            Kind::LiveOutput
        } else {
            Kind::LiveInput
        }
    }

    pub(crate) fn hidden(out: bool) -> Kind
        ensures { kind_number result ≡ pick out 4 3 }
    {
        if out {
            Kind::HiddenOutput
        } else {
            Kind::HiddenInput
        }
    }
}

impl From<Kind> for u64 {
    ghost from_gives = { λ kind result. result ≡ kind_number kind };

    fn from(kind: Kind) -> u64 {
        kind as u64
    }
}

// Any other number, in words that no start left, is taken for a hidden output.
impl From<u64> for Kind {
    ghost from_gives = { λ word result. result ≡ kind_of word };

    fn from(word: u64) -> Kind {
        match word {
            0 => Kind::LiveInput,
            1 => Kind::LiveOutput,
            2 => Kind::Gone,
            3 => Kind::HiddenInput,
            _ => Kind::HiddenOutput,
        }
    }
}
