// What the sessions of a tape speak.

/// What a session speaks.
#[derive(Clone, Copy, Debug, PartialEq, Eq)]
pub enum Protocol {
    /// SMTP, which takes mail.
    Smtp,
    /// POP3, which reads it back.
    Pop,
}
