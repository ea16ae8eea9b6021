ghost use Rattle.sig_caep.specs.Lists.{risk_levels, risk_level_text};

use sig_json::{Listed, Same};

/// How high a risk is (CAEP 1.0, section 3.8).
#[derive(Clone, Copy, PartialEq, Eq)]
pub enum RiskLevel {
    /// The risk is low.
    Low,
    /// The risk is medium.
    Medium,
    /// The risk is high.
    High,
}

impl Listed for RiskLevel {
    ghost use Rattle.sig_caep.specs.declared.risk_level.RiskLevel.TheVariants.{Low};

    ghost values = { risk_levels };

    ghost text_of = { risk_level_text };

    ghost otherwise = { Low };

    #[tactic(auto, unfolding(crate::specs::Lists::risk_levels))]
    fn values() -> &'static [RiskLevel] {
        &[RiskLevel::Low, RiskLevel::Medium, RiskLevel::High]
    }

    #[tactic(auto, unfolding(crate::specs::Lists::risk_level_text))]
    fn as_str(&self) -> &'static str {
        match self {
            RiskLevel::Low => "LOW",
            RiskLevel::Medium => "MEDIUM",
            RiskLevel::High => "HIGH",
        }
    }
}

impl Same for RiskLevel {
    fn same(&self, other: &RiskLevel) -> bool {
        self == other
    }
}
