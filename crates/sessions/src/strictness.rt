//! How strict a run is.
ghost use Rattle.std.specs.Prelude.{◌≡◌};
ghost use Rattle.sessions.specs.Strict.{behind_line, is_due};

/// With which of its lines a run ends where they fail. A line fails that a fault, `ABORT` or a true `ABORT"` ended.
/// Rule: SEMANTICS, Sessions.
#[derive(Clone, Copy, Debug, PartialEq, Eq)]
pub enum Strictness {
    /// With none.
    Never,
    /// With the first one: without it the others have no sense.
    First,
    /// With each.
    Always,
}

impl Strictness {
    /// Whether the run ends with its next line, where that fails.
    pub(super) fn is_due(self) -> bool
        ensures { result ≡ is_due self }
    {
        match self {
            Strictness::Never => false,
            Strictness::First => true,
            Strictness::Always => true,
        }
    }

    /// How strict the run is behind its next line.
    pub(super) fn behind_line(self) -> Strictness
        ensures { result ≡ behind_line self }
    {
        match self {
            Strictness::Never => Strictness::Never,
            Strictness::First => Strictness::Never,
            Strictness::Always => Strictness::Always,
        }
    }
}
