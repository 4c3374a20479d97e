//! Why a text is no cron expression.
use thiserror::Error;

/// Why a text is no cron expression. The first fault is answered: fields go from left to right, and their elements too.
#[derive(Clone, Copy, Debug, PartialEq, Eq, Error)]
pub enum CronFault {
    /// The text has more or fewer than five fields.
    #[error("a cron expression has five fields")]
    FieldCount,
    /// A value is neither a number of one to four digits nor a name of its field.
    #[error("a value is neither a number nor a name of its field")]
    BadNumber,
    /// A value lies outside the range of its field.
    #[error("a value lies outside the range of its field")]
    OutOfField,
    /// A range falls.
    #[error("a range falls")]
    BadRange,
    /// A step is not a number of one to three digits, or it is 0.
    #[error("a step is not a number from 1 to 999")]
    BadStep,
    /// The expression has no tick from 1970 to before 2200.
    #[error("the expression never fires")]
    NeverFires,
    /// A text that begins with `@` is no preset.
    #[error("there is no such preset")]
    UnknownPreset,
}
