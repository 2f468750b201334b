ghost use Rattle.sb_members.specs.Laws.{AreReadAgain, NestAsValues, FloatAsValues};

use sb_json::encoded_bytes_read_again;

/// What is written of a field is what its row reads, whatever is written beside it.
pub fn written_members_read_again()
    ensures { AreReadAgain }
{
    encoded_bytes_read_again();
}

/// Members nest no deeper than their values, and have a float only where one of these has one.
pub fn members_are_as_their_values()
    ensures depths { NestAsValues }
    ensures floats { FloatAsValues }
{}
