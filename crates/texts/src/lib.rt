// The texts of the refusals: one table of bytes, and how a text is put into lent memory.
#![tactic(auto)]

ghost use Rattle.std.specs.Prelude.{true, ◌≡◌, ◌≤◌, eqb, length, drop, position};
ghost use Rattle.texts.specs.Text.{text_of, up_to_nul, behind_number, face_laid, text_laid};

// Where the words of a number begin in a table: behind the number of its row, which is not inside words; 0, where those of any other
// number begin, if it has no row. What follows a NUL is no longer inside words. (One table of bytes: docs/DECISIONS.md, 51.)
#[tactic(auto, using(crate::proofs::Scans::hit, crate::proofs::Scans::missed, crate::proofs::Scans::none_left))]
fn words_at(table: &[u8], n: u8) -> usize
    ensures { (result ≤ length table.now) × (drop result table.now ≡ behind_number true n table.now table.now) }
{
    let mut inside = true;
    for (i, b) in table.iter().enumerate() {
        if !inside && n == *b {
            return i + 1;
        }
        inside = !(inside && *b == 0);
    }
    0
}

// Where the first NUL of a row stands.
fn first_nul(row: &[u8]) -> Option<usize>
    ensures { result ≡ position (λ b. eqb b 0) row.now }
{
    row.iter().position(|b| *b == 0)
}

// How many bytes stand before the first NUL.
#[tactic(auto, using(crate::proofs::Scans::nul_found))]
fn nul_at(row: &[u8]) -> usize
    ensures { result ≡ length (up_to_nul row.now) }
{
    first_nul(row).unwrap_or(row.len())
}

// One stretch into another that is as long, byte by byte: a copy by length would be turned into `memcpy`, and the library needs `memset`
// alone.
pub fn copy(from: &[u8], to: &mut [u8])
    requires { length to.old ≡ length from.now }
    ensures { to.new ≡ from.now }
{
    for i in 0..to.len() {
        to[i] = from[i];
    }
}

// The bytes before a NUL at the front of lent memory, a NUL behind them, and their number; or 0 and not a byte.
fn lay(row: &[u8], out: &mut [u8]) -> usize
    ensures { face_laid result out.new ≡ text_laid (up_to_nul row.now) out.old }
{
    let n = nul_at(row);
    if out.len() <= n {
        // 0 where there is no room is what sleet_text answers (`text_laid`).
        return 0;
    }
    copy(&row[..n], &mut out[..n]);
    out[n] = 0;
    n
}

// The words of a number in a table, laid.
fn lay_words(table: &[u8], n: u8, out: &mut [u8]) -> usize
    ensures { face_laid result out.new ≡ text_laid (up_to_nul (behind_number true n table.now table.now)) out.old }
{
    let a = words_at(table, n);
    lay(&table[a..], out)
}

// What a number of refusal means. A row of the table: the number, its words and a NUL; the first words are those of any other number.
pub fn lay_text(refusal: u8, out: &mut [u8]) -> usize
    ensures { face_laid result out.new ≡ text_laid (text_of refusal) out.old }
{
    lay_words(
        b"no such refusal\0\
        \x00done\0\
        \x01the geometry is not sound\0\
        \x02cells of the wrong length\0\
        \x03cache register of the wrong length\0\
        \x04page counts of the wrong length\0\
        \x05the state is not sound\0\
        \x06the next kind is not in the table\0\
        \x07the log ends inside a body\0\
        \x08a WP# level above 1\0\
        \x09no output room, or too little for a record\0\
        \x0Ano copy of the parameter page holds\0\
        \x0Bmemory too short for the parameter page\0\
        \x0Ea core above 3\0\
        \x0Feight transfers wait in that queue\0\
        \x10no transfer waits\0\
        \x11card cells of the wrong length\0\
        \x12card protect bits of the wrong length\0\
        \x14the keeper is not sound\0",
        refusal,
        out,
    )
}
