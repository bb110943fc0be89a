//! The parts of an image, in their order.

ghost use Rattle.std.specs.Prelude.{◌≡◌, ◌∷◌, [], MatchOption};
ghost use Rattle.image_codec.specs.Sections.{following};

/// What comes first, and the lists.
#[derive(Clone, Copy, Debug, PartialEq, Eq)]
pub enum Section {
    Start,
    Nodes,
    Quotas,
    Templates,
    Autos,
    Groups,
    Screens,
    Excepts,
    Jobs,
    Acts,
    Audits,
}

impl Section {
    /// The next one.
    pub fn next(self) -> Option<Section>
        ensures { MatchOption result (following self ≡ []) (λ next. following self ≡ next ∷ following next) }
    {
        match self {
            Section::Start => Some(Section::Nodes),
            Section::Nodes => Some(Section::Quotas),
            Section::Quotas => Some(Section::Templates),
            Section::Templates => Some(Section::Autos),
            Section::Autos => Some(Section::Groups),
            Section::Groups => Some(Section::Screens),
            Section::Screens => Some(Section::Excepts),
            Section::Excepts => Some(Section::Jobs),
            Section::Jobs => Some(Section::Acts),
            Section::Acts => Some(Section::Audits),
            Section::Audits => None,
        }
    }
}
