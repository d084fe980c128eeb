//! What was found, kept while what stands behind it is read.

ghost use Rattle.sync_syntax.specs.Reading.{ReadsByRule};
ghost use Rattle.sync_syntax.specs.inner.Tails as tails;

use crate::cursor::Tokens;
use crate::fault::ParseFault;
use crate::simple::ending;
use sync_tokens::Sign;

/// What was found, with this sign behind it.
pub(crate) fn closed<T: Drop>(
    tokens: &mut Tokens<'_>,
    found: T,
    sign: Sign,
) -> Result<T, ParseFault>
    ensures { ReadsByRule (tails.closed found sign tokens.old) result tokens.new }
{
    tokens.expect(sign)?;
    Ok(found)
}

/// What was found, with the end of a statement behind it.
pub(crate) fn ended<T: Drop>(tokens: &mut Tokens<'_>, found: T) -> Result<T, ParseFault>
    ensures { ReadsByRule (tails.ended found tokens.old) result tokens.new }
{
    ending(tokens)?;
    Ok(found)
}
