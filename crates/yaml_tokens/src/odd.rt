//! What no rule admits.

/// Why no rule admits a token.
#[derive(Clone, Copy)]
pub enum Odd {
    /// An indicator that would begin a value of YAML beyond the profile: unsupported where a value may
    /// begin.
    Indicator,
    /// A scalar before a quote or a bracket that isn't closed on its line, or before `? `:
    /// unsupported where a key may stand, since what stands there is the first that can't.
    Unkeyed,
    /// Unsupported wherever it stands.
    Unsupported,
    /// A fault of syntax wherever it stands.
    Syntax,
}
