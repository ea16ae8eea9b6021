ghost use Rattle.sig_caep.specs.Lists.{compliances, compliance_text};

use sig_json::{Listed, Same};

/// Whether a device is compliant (CAEP 1.0, section 3.5).
#[derive(Clone, Copy, PartialEq, Eq)]
pub enum Compliance {
    /// The device is compliant.
    Compliant,
    /// The device isn't compliant.
    NotCompliant,
}

impl Listed for Compliance {
    ghost use Rattle.sig_caep.specs.declared.compliance.Compliance.TheVariants.{Compliant};

    ghost values = { compliances };

    ghost text_of = { compliance_text };

    ghost otherwise = { Compliant };

    #[tactic(auto, unfolding(crate::specs::Lists::compliances))]
    fn values() -> &'static [Compliance] {
        &[Compliance::Compliant, Compliance::NotCompliant]
    }

    #[tactic(auto, unfolding(crate::specs::Lists::compliance_text))]
    fn as_str(&self) -> &'static str {
        match self {
            Compliance::Compliant => "compliant",
            Compliance::NotCompliant => "not-compliant",
        }
    }
}

impl Same for Compliance {
    fn same(&self, other: &Compliance) -> bool {
        self == other
    }
}
