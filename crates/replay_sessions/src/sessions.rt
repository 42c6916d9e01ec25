// Blocks of cases on one session: a `session` line, calls, `log`, `end`.
use crate::foreign;
use cases::{Case, Stop, all_are, bytes, faulted, number, ok_bytes, ok_number, plain, sound_key};
use desk::Desk;
use key::Key;
use ring::Fault;
use scheme::SessionFault;
use script::{hex_text, sample};
use session::{Count, Session};
use std::alloc::{AllocError, Global};

// The number of the order that a case uses.
fn order_of(case: &Case) -> Result<u8, Stop> {
    let order = case.number("order")?;
    if order > 8 {
        return Err(Stop::Unreadable);
    }
    Ok(order as u8)
}

// The numbers of a sample, two bytes each; what is left over is no number.
fn sample_of(heap: Global, case: &Case) -> Result<Vec<i16>, Stop> {
    let bytes = case.bytes(heap, "sample")?;
    let bytes = bytes.as_slice();
    sample(heap, &bytes[..bytes.len() / 2 * 2])?.ok_or(Stop::Unreadable)
}

// A refusal, which leaves an area as it was lent: of bytes or of numbers, where `cases` has files and slips alone.
fn left<T: PartialEq + Copy>(
    heap: Global,
    area: &[T],
    lent: T,
    fault: Fault,
) -> Result<Vec<u8>, Stop> {
    if !all_are(area, lent) {
        return plain(heap, b"area touched");
    }
    faulted(heap, fault)
}

// What target did with an area of sevens.
fn aimed(
    heap: Global,
    area: &[u8],
    answer: Option<Result<(), SessionFault>>,
) -> Result<Vec<u8>, Stop> {
    match answer.ok_or(Stop::Unreadable)? {
        Ok(()) => ok_bytes(heap, area),
        Err(fault) => left(heap, area, 7, fault.into()),
    }
}

// What sign did with an area of sevens: ok:LENGTH:kept or changed:SIGNATURE
fn issued(
    heap: Global,
    area: &[i32],
    answer: Option<Result<(u32, bool), SessionFault>>,
) -> Result<Vec<u8>, Stop> {
    let (length, changed) = match answer.ok_or(Stop::Unreadable)? {
        Ok(issued) => issued,
        Err(fault) => return left(heap, area, 7, fault.into()),
    };
    let signature: Vec<u8> = area
        .iter()
        .flat_map(|number| number.to_be_bytes())
        .collect(heap)?;
    let signature = hex_text(heap, signature.as_slice())?;
    let change = if changed { "changed" } else { "kept" };
    let text = format!(in heap; "ok:{length}:{change}:{signature}")?;
    plain(heap, text.as_bytes())
}

// Whether the order with this number is in hand.
fn holds(desk: &Desk<'_, '_>, number: u8) -> bool {
    let hand = desk.hand.as_ref();
    hand.is_some_and(|order| order.number() == u32::from(number))
}

// Withdraws the order with this number: the one in hand, or one of another session. This and the next two are a test
// and two calls: one function that takes the calls as closures would be no shorter.
fn withdraw_any(desk: &mut Desk<'_, '_>, number: u8) -> Option<Result<(), SessionFault>> {
    if holds(desk, number) {
        return desk.withdraw();
    }
    foreign::withdraw(&mut desk.session, number)
}

// The same for a target.
fn target_any(
    desk: &mut Desk<'_, '_>,
    number: u8,
    area: &mut [u8],
    scratch: &mut [i64],
) -> Option<Result<(), SessionFault>> {
    if holds(desk, number) {
        return desk.target(area, scratch);
    }
    foreign::target(&mut desk.session, number, area, scratch)
}

// The same for a signature.
fn sign_any(
    desk: &mut Desk<'_, '_>,
    number: u8,
    sample: &[i16],
    area: &mut [i32],
    scratch: &mut [i64],
) -> Option<Result<(u32, bool), SessionFault>> {
    if holds(desk, number) {
        return desk.sign(sample, area, scratch);
    }
    foreign::sign(&mut desk.session, number, sample, area, scratch)
}

// Plays the calls of a block on its session.
struct Player<'k, 'l> {
    heap: Global,
    desk: Desk<'k, 'l>,
}

// Each call tests its scratch itself: one line, where a function for both would be no plainer.
impl Player<'_, '_> {
    fn announced(&mut self, case: &Case) -> Result<Vec<u8>, Stop> {
        let hash = case.bytes(self.heap, "hash")?;
        match self.desk.announce(hash.as_slice()) {
            Ok(number) => ok_number(self.heap, number as usize),
            Err(fault) => faulted(self.heap, fault.into()),
        }
    }

    fn withdrawn(&mut self, case: &Case) -> Result<Vec<u8>, Stop> {
        let number = order_of(case)?;
        match withdraw_any(&mut self.desk, number).ok_or(Stop::Unreadable)? {
            Ok(()) => plain(self.heap, b"ok"),
            Err(fault) => faulted(self.heap, fault.into()),
        }
    }

    fn targeted(&mut self, case: &Case) -> Result<Vec<u8>, Stop> {
        let heap = self.heap;
        let number = order_of(case)?;
        let mut area = vec![in heap; 7u8; case.number("area")?]?;
        let mut scratch = vec![in heap; 7i64; case.number("scratch")?]?;
        let answer = target_any(
            &mut self.desk,
            number,
            area.as_mut_slice(),
            scratch.as_mut_slice(),
        );
        if !all_are(scratch.as_slice(), 0) {
            return plain(heap, b"scratch not zero");
        }
        aimed(heap, area.as_slice(), answer)
    }

    fn signed(&mut self, case: &Case) -> Result<Vec<u8>, Stop> {
        let heap = self.heap;
        let number = order_of(case)?;
        let sample = sample_of(heap, case)?;
        let mut area = vec![in heap; 7i32; case.number("area")?]?;
        let mut scratch = vec![in heap; 7i64; case.number("scratch")?]?;
        let answer = sign_any(
            &mut self.desk,
            number,
            sample.as_slice(),
            area.as_mut_slice(),
            scratch.as_mut_slice(),
        );
        if !all_are(scratch.as_slice(), 0) {
            return plain(heap, b"scratch not zero");
        }
        issued(heap, area.as_slice(), answer)
    }

    // ok:ISSUED:CAPACITY:yes or no
    fn counted(&self) -> Result<Vec<u8>, Stop> {
        let Count {
            issued,
            capacity,
            standing,
        } = self.desk.session.count();
        let standing = if standing { "yes" } else { "no" };
        let text = format!(in self.heap; "ok:{issued}:{capacity}:{standing}")?;
        plain(self.heap, text.as_bytes())
    }

    // The verbs are words of a case's line.
    fn played(&mut self, case: &Case) -> Result<Vec<u8>, Stop> {
        match case.verb {
            "announce" => self.announced(case),
            "target" => self.targeted(case),
            "sign" => self.signed(case),
            "withdraw" => self.withdrawn(case),
            "count" => self.counted(),
            _ => Err(Stop::Unreadable),
        }
    }

    // Whether a call comes out as expected.
    fn right(&mut self, line: &str) -> bool {
        let Ok(case) = Case::read(line) else {
            return false;
        };
        self.played(&case)
            .is_ok_and(|got| got.as_slice() == case.expect.as_bytes())
    }
}

// Makes the calls of a block on a session, and answers for each line whether it came out as expected.
fn calls(
    heap: Global,
    key: &Key,
    log: &mut [u8],
    lines: &[String],
) -> Result<Vec<bool>, AllocError> {
    let desk = Desk::new(Session::open(key, log));
    let mut player = Player { heap, desk };
    let marks = lines
        .iter()
        .map(|line| player.right(line.as_str()))
        .collect(heap);
    let Player { heap: _, desk } = player;
    desk.close();
    marks
}

// Runs a block: its first line opens the session, and a last line `log` has the whole log afterwards. Answers for
// each line after the first whether it came out as expected.
pub(crate) fn block(heap: Global, first: &str, lines: &[String]) -> Result<Vec<bool>, Stop> {
    let case = Case::open(first)?;
    let key = sound_key(heap, &case)?;
    let mut log = case.bytes(heap, "log")?;
    let mut marks = calls(heap, &key, log.as_mut_slice(), lines)?;
    if let Some(last) = lines.last() {
        let logged = Case::read(last.as_str())?;
        let text = hex_text(heap, log.as_slice())?;
        if logged.verb == "log" && text.as_str() == logged.expect {
            if let Some(mark) = marks.last_mut() {
                *mark = true;
            }
        }
    }
    Ok(marks)
}
