//! Laws of revocation lists: the contracts of functions that do nothing.

ghost use Rattle.std.specs.Prelude.{◌≡◌, ℕ, List};
ghost use Rattle.certs_crl.specs.bcder_tree.declared.mode.Mode.{Mode as ModeValue};
ghost use Rattle.certs_crl.specs.bcder_content.Grammar.{End, Then};
ghost use Rattle.certs_x509.specs.bcder_values.Returns.{ReadAgain};
ghost use Rattle.certs_x509.specs.certs_extension.CrlText.{CrlText, CrlValue, IsTbsList, TbsListValue};
ghost use Rattle.certs_crl.specs.Written.{WritesCrl, WritesTbsList, padded_again, read_in};
ghost use Rattle.certs_crl.specs.bcder_tree.declared.mode.Mode.TheVariants.{Der};

use certs_x509::revoked::crl_is_spelled;

/// What is written of a list's fields is read again as these fields, in each mode; the name's octets stand in that mode.
pub fn fields_are_read_again()
    ensures { (c : TbsListValue) (m : ModeValue) (text : List ℕ) → WritesTbsList c m text
        → ReadAgain m (λ ts. Then (IsTbsList m) End ts (read_in m c, tt)) text }
{}

/// A list that was built is read again, where its octets are those of its fields: with the same fields and the same signed
/// octets, and the signature but for what stands in unused bits.
pub fn built_lists_are_read_again()
    ensures { (c : CrlValue) (text : List ℕ) → WritesTbsList c.tbs Der c.signed.message
        → c.tbs.has_null ≡ c.signed.has_null → (w : WritesCrl c Der text)
        → CrlText text (padded_again c w.value) }
{
    crl_is_spelled();
}
