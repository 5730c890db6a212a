// The bytes of one record, put at the front of a lent part of the buffer. Each function answers how many bytes it wrote.
ghost use Rattle.std.specs.Prelude.{◌≡◌, ◌++◌, ◌+◌, ◌≤◌, length, Some};
ghost use Rattle.fields.specs.Placed.{Wrote};
ghost use Rattle.raw_records.specs.declared.raw.RawRecord.TheVariants.{Term, Step};
ghost use Rattle.records.specs.Headers.{lives_at, header_width};
ghost use Rattle.writer.specs.File.{front_in_bytes, lives_in_bytes, header_in_bytes, record_in_bytes};

use exchange::header::{Flags, Header, format_of};
use fields::write_text;
use raw_records::raw::RawRecord;
use records::record::{STEP_BYTES, TERM_BYTES};

// A text at the front of what is lent.
fn copy(text: &[u8], out: &mut [u8]) -> usize
    requires { length text.now ≤ length out.old }
    ensures { Wrote out.old 0 text.now out.new result }
{
    write_text(out, 0, text)
}

// The mark, n and the flags.
fn write_front(out: &mut [u8], width: Flags, header: Header) -> usize
    requires { lives_at width ≤ length out.old }
    ensures { Wrote out.old 0 (front_in_bytes width header) out.new result }
{
    let [mark_high, mark_low] = header.mark.to_be_bytes();
    let [first, second, third, last] = header.flags.to_be_bytes();
    match width {
        Flags::Bits16 => copy(&[mark_high, mark_low, header.n, third, last], out),
        Flags::Bits32 => copy(
            &[mark_high, mark_low, header.n, first, second, third, last],
            out,
        ),
    }
}

// Ls and La.
fn write_lives(out: &mut [u8], ls: u32, la: u32) -> usize
    requires { 8 ≤ length out.old }
    ensures { Wrote out.old 0 (lives_in_bytes ls la) out.new result }
{
    let [ls_first, ls_second, ls_third, ls_last] = ls.to_be_bytes();
    let [la_first, la_second, la_third, la_last] = la.to_be_bytes();
    copy(
        &[
            ls_first, ls_second, ls_third, ls_last, la_first, la_second, la_third, la_last,
        ],
        out,
    )
}

fn write_values(out: &mut [u8], width: Flags, header: Header) -> usize
    requires { lives_at width + 8 ≤ length out.old }
    ensures { Wrote out.old 0 (front_in_bytes width header ++ lives_in_bytes header.ls header.la) out.new result }
{
    let end = write_front(out, width, header);
    let lives = write_lives(&mut out[end..], header.ls, header.la);
    end + lives
}

// A header in the layout of its mark; with a mark that is not known it has no bytes.
pub fn write_header(out: &mut [u8], header: Header) -> usize
    requires { header_width header.mark ≤ length out.old }
    ensures { Wrote out.old 0 (header_in_bytes header) out.new result }
{
    match format_of(header.mark) {
        Some(format) => {
            let width = format.flags;
            write_values(out, width, header)
        }
        None => 0,
    }
}

// TM, kind, L, R: the low bytes of each.
#[tactic(auto, unfolding(crate::specs::File::record_in_bytes))]
fn write_term(out: &mut [u8], kind: u32, l: u32, r: u32) -> usize
    requires { 7 ≤ length out.old }
    ensures { Wrote out.old 0 (record_in_bytes (Some (Term kind l r))) out.new result }
{
    let [_, _, _, kind_low] = kind.to_be_bytes();
    let [_, _, l_high, l_low] = l.to_be_bytes();
    let [_, _, r_high, r_low] = r.to_be_bytes();
    copy(&[b'T', b'M', kind_low, l_high, l_low, r_high, r_low], out)
}

// ST, step, run, a, b, m, t: the low bytes of each.
#[tactic(auto, unfolding(crate::specs::File::record_in_bytes))]
fn write_step(out: &mut [u8], step: u32, run: u32, a: u32, b: u32, m: u32, t: u32) -> usize
    requires { 12 ≤ length out.old }
    ensures { Wrote out.old 0 (record_in_bytes (Some (Step step run a b m t))) out.new result }
{
    let [_, _, _, step_low] = step.to_be_bytes();
    let [_, _, _, run_low] = run.to_be_bytes();
    let [_, _, _, a_low] = a.to_be_bytes();
    let [_, _, _, b_low] = b.to_be_bytes();
    let [_, _, m_high, m_low] = m.to_be_bytes();
    let [t_first, t_second, t_third, t_last] = t.to_be_bytes();
    copy(
        &[
            b'S', b'T', step_low, run_low, a_low, b_low, m_high, m_low, t_first, t_second, t_third,
            t_last,
        ],
        out,
    )
}

// A record; what is none has no bytes.
#[tactic(auto, using(crate::proofs::Progress::none_wrote), unfolding(crate::specs::File::record_in_bytes))]
pub fn write_record(out: &mut [u8], raw: Option<RawRecord>) -> usize
    requires { length (record_in_bytes raw) ≤ length out.old }
    ensures { Wrote out.old 0 (record_in_bytes raw) out.new result }
{
    match raw {
        Some(RawRecord::Term { kind, l, r }) => write_term(out, kind, l, r),
        Some(
            RawRecord::Step {
                step,
                run,
                a,
                b,
                m,
                t,
            },
        ) => write_step(out, step, run, a, b, m, t),
        None => 0,
    }
}

// How many bytes a record takes.
#[tactic(auto, unfolding(crate::specs::File::record_in_bytes))]
pub fn record_width(raw: Option<RawRecord>) -> usize
    ensures { result ≡ length (record_in_bytes raw) }
{
    match raw {
        Some(RawRecord::Term { .. }) => TERM_BYTES,
        Some(RawRecord::Step { .. }) => STEP_BYTES,
        None => 0,
    }
}
