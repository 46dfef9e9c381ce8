// A buffer in few numbers: how many equal bytes stand together, and which.
ghost use Rattle.std.specs.Prelude.{◌≡◌, drop};
ghost use Rattle.output.specs.Promises.{Extends};
ghost use Rattle.casefile.specs.Pieces.{ends_run};
ghost use Rattle.casefile.specs.Promises.{PutsRepeats};

use output::Text;

// Whether the bytes have no further b at i.
fn ends_at(bytes: &[u8], i: usize, b: u8) -> bool
    ensures { result ≡ ends_run b (drop i bytes.now) }
{
    bytes.get(i).is_none_or(|next| *next != b)
}

// A line of the pairs, none for an empty buffer.
pub fn put_repeats(rt: &(impl Print + Eprint), text: &mut Text, kind: u64, bytes: &[u8])
    ensures { Extends (PutsRepeats kind bytes.now) text.old text.new }
{
    text.put_numbers(kind, &[]);
    let mut count: u64 = 0;
    for (i, b) in bytes.iter().enumerate() {
        count += 1;
        if ends_at(bytes, i + 1, *b) {
            text.put_more(&[count, u64::from(*b)]);
            count = 0;
        }
    }
    text.end_line(rt);
}
