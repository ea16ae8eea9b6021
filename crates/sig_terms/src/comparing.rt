//! Comparison of terms that come in several kinds.

// Whether both are one value of an enum: of the kinds before the semicolon that have no members, and of those after it
// with the other value's name for each member, and how it is compared: `~` by `Same`, `==` by `PartialEq`.
macro_rules! same_variant {
    ($one:expr, $two:expr, $type:ident {
        $($unit:ident),*; $($variant:ident { $($member:ident $way:tt $other:ident),* }),* $(,)?
    }) => {
        match $one {
            $($type::$unit => matches!($two, $type::$unit),)*
            $($type::$variant { $($member),* } => match $two {
                $type::$variant { $($member: $other),* } => $(same_member!($member $way $other))&&*,
                _ => false,
            },)*
        }
    };
}

pub(crate) use same_variant;

macro_rules! same_member {
    ($one:ident ~ $two:ident) => { $one.same($two) };
    ($one:ident == $two:ident) => { *$one == *$two };
}

pub(crate) use same_member;
