//! The primaries that the equipment takes.

ghost use Rattle.std.specs.Prelude.{◌≡◌};
ghost use Rattle.gem_shapes.specs.Primaries.{is_known, is_known_stream, primary_with};

/// A primary that the equipment takes, by its stream and function.
#[derive(Clone, Copy, Debug, PartialEq, Eq)]
pub enum Primary {
    S1F1,
    S1F3,
    S1F11,
    S1F13,
    S1F15,
    S1F17,
    S2F13,
    S2F15,
    S2F23,
    S2F29,
    S2F33,
    S2F35,
    S2F37,
    S2F39,
    S2F41,
    S2F43,
    S5F3,
    S5F5,
    S5F7,
    S6F15,
    S6F19,
    S6F23,
    S7F1,
    S7F3,
    S7F5,
    S7F17,
    S7F19,
    S10F3,
    S10F5,
}

impl Primary {
    /// The primary of this stream and function; `None` exactly where the equipment takes none.
    pub fn with(stream: u8, function: u8) -> Option<Primary>
        ensures { result ≡ primary_with stream function }
    {
        match stream {
            1 => Primary::in_stream_1(function),
            2 => Primary::in_stream_2(function),
            5 => Primary::in_stream_5(function),
            6 => Primary::in_stream_6(function),
            7 => Primary::in_stream_7(function),
            10 => Primary::in_stream_10(function),
            _ => None,
        }
    }

    fn in_stream_1(function: u8) -> Option<Primary>
        ensures { result ≡ primary_with 1 function }
    {
        Some(match function {
            1 => Primary::S1F1,
            3 => Primary::S1F3,
            11 => Primary::S1F11,
            13 => Primary::S1F13,
            15 => Primary::S1F15,
            17 => Primary::S1F17,
            _ => return None,
        })
    }

    fn in_stream_2(function: u8) -> Option<Primary>
        ensures { result ≡ primary_with 2 function }
    {
        Some(match function {
            13 => Primary::S2F13,
            15 => Primary::S2F15,
            23 => Primary::S2F23,
            29 => Primary::S2F29,
            33 => Primary::S2F33,
            35 => Primary::S2F35,
            37 => Primary::S2F37,
            39 => Primary::S2F39,
            41 => Primary::S2F41,
            43 => Primary::S2F43,
            _ => return None,
        })
    }

    fn in_stream_5(function: u8) -> Option<Primary>
        ensures { result ≡ primary_with 5 function }
    {
        Some(match function {
            3 => Primary::S5F3,
            5 => Primary::S5F5,
            7 => Primary::S5F7,
            _ => return None,
        })
    }

    fn in_stream_6(function: u8) -> Option<Primary>
        ensures { result ≡ primary_with 6 function }
    {
        Some(match function {
            15 => Primary::S6F15,
            19 => Primary::S6F19,
            23 => Primary::S6F23,
            _ => return None,
        })
    }

    fn in_stream_7(function: u8) -> Option<Primary>
        ensures { result ≡ primary_with 7 function }
    {
        Some(match function {
            1 => Primary::S7F1,
            3 => Primary::S7F3,
            5 => Primary::S7F5,
            17 => Primary::S7F17,
            19 => Primary::S7F19,
            _ => return None,
        })
    }

    fn in_stream_10(function: u8) -> Option<Primary>
        ensures { result ≡ primary_with 10 function }
    {
        Some(match function {
            3 => Primary::S10F3,
            5 => Primary::S10F5,
            _ => return None,
        })
    }
}

/// Whether the equipment takes some primary of this stream.
pub fn is_known_stream(stream: u8) -> bool
    ensures { result ≡ is_known_stream stream }
{
    matches!(stream, 1 | 2 | 5 | 6 | 7 | 10)
}

/// Whether the equipment takes the primary of this stream and function.
pub fn is_known(stream: u8, function: u8) -> bool
    ensures { result ≡ is_known stream function }
{
    Primary::with(stream, function).is_some()
}
