//! Why a model text is refused.
ghost use Rattle.std.specs.Prelude.{◌≡◌};
ghost use Rattle.text_fields.specs.Causes.{code_name};

pub use model_reader::Refusal;

/// What the first check that fails found.
#[derive(Clone, Copy)]
pub enum Cause {
    /// The text has more than 1,048,576 bytes.
    TooLong,
    /// The text is no TOML document.
    NotToml,
    /// A required field is absent.
    Missing,
    /// A key is unknown.
    Unknown,
    /// A value is of the wrong type, or is none of those that its field takes.
    BadValue,
    /// An object is named that is not there, or that takes no events.
    BadLink,
    /// A number is too great, or an array too long.
    Limit,
}

impl Cause {
    ghost use Rattle.std.specs.Prelude.{◌≡◌};
    ghost use Rattle.model_reader.specs.declared.refusal.Refusal.TheVariants.{At};
    ghost use Rattle.text_fields.specs.Causes.{cause_code};

    /// Its code, from 1 to 7.
    fn code(self) -> u8
        ensures { result ≡ cause_code self }
    {
        match self {
            Cause::TooLong => 1,
            Cause::NotToml => 2,
            Cause::Missing => 3,
            Cause::Unknown => 4,
            Cause::BadValue => 5,
            Cause::BadLink => 6,
            Cause::Limit => 7,
        }
    }

    /// The refusal at an item.
    pub fn at(self, item: u32) -> Refusal
        ensures { result ≡ At (cause_code self) item }
    {
        Refusal::At {
            code: self.code(),
            item,
        }
    }
}

/// What a code is called, or nothing if no refusal has it.
pub fn code_name(code: u8) -> &'static str
    ensures { result.now ≡ code_name code }
{
    match code {
        1 => "TooLong",
        2 => "NotToml",
        3 => "Missing",
        4 => "Unknown",
        5 => "BadValue",
        6 => "BadLink",
        7 => "Limit",
        _ => "",
    }
}
