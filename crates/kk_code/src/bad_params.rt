//! Why there is no code of some parameters.
use std::error::Error;
use std::fmt;

/// The first limit that the parameters of a code break, in this order.
#[derive(Clone, Copy, Debug, PartialEq, Eq)]
pub enum BadParams {
    /// m is not 2 to 64.
    M,
    /// l is not 1 to m.
    L,
    /// k is not 1 to l.
    K,
}

impl fmt::Display for BadParams {
    ghost use Rattle.std.specs.Prelude.{Some};
    ghost use Rattle.kk_code.specs.BadParamsText.{bad_params_text};

    ghost output = { λ broken. Some (bad_params_text broken) };

    fn fmt<W: fmt::Write>(&self, f: &mut fmt::Formatter<W>) -> fmt::Result {
        match self {
            BadParams::M => f.write_str("the degree of the field is not 2 to 64"),
            BadParams::L => f.write_str(
                "the number of evaluation points is not 1 to the degree of the field",
            ),
            BadParams::K => f.write_str(
                "the number of symbols is not 1 to the number of evaluation points",
            ),
        }
    }
}

impl Error for BadParams {}
