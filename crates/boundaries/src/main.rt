// Interrupts a multiplication at every boundary in turn, and at all of them at once, with a handler that itself multiplies and loads Q and
// every flag, and prints each outcome beside that of the undisturbed run. It reads the two sheets, packed, one after the other.
// The multiplication, Q times register 0, on 2 registers, as a listing (docs/LISTING.md) in short, where what is left out is 0 and xN is N lines:
//
//     UMULFIRST code=0 A=0 B=1 Y=1 write
//     UMULSTEP  code=0 x15 A=0 B=1 Y=1 write
//     UMULLAST  code=0 A=0 B=1 Y=1 write
//
// The handler, on 8 registers; its words without write have Y 0, which names no register, though the multiplication names register 0:
//
//     PASS-STAT code=0 A=5 B=5 Y=6 write        # saves status and Q
//     PASS-Q    code=0 A=5 B=5 Y=7 write
//     LOADQ-A   code=0 A=2 B=5
//     LDSTAT-A  code=0 A=3 B=5
//     UMULFIRST code=0 A=4 B=5 Y=5 write
//     UMULSTEP  code=0 x15 A=4 B=5 Y=5 write
//     UMULLAST  code=0 A=4 B=5 Y=5 write
//     LOADQ-A   code=0 A=7 B=5                  # restores them
//     LDSTAT-A  code=0 A=6 B=5
#![tactic(auto)]

use lines::print_word;
use machine::Machine;
use reasons::Outcome;

// The boundaries of a multiplication of 17 words.
const EVERY: [u16; 18] = [0, 1, 2, 3, 4, 5, 6, 7, 8, 9, 10, 11, 12, 13, 14, 15, 16, 17];

// Both sheets, the status that the multiplication starts with, and the one that the handler's body loads.
#[derive(Clone, Copy)]
pub struct Trial<'a> {
    pub main: &'a [u8],
    pub handler: &'a [u8],
    pub status: u32,
    pub loaded: u32,
}

impl Trial<'_> {
    // The registers at the start. The handler multiplies registers 2 and 4, and loads its status from register 3.
    fn registers(self) -> [u32; 8] {
        [0x89abcdef, 0, 0x0fedcba9, self.loaded, 0xfffffff1, 0, 0, 0]
    }

    // Q is the multiplier.
    fn start(self) -> Machine {
        Machine {
            q: 0xfedcba98,
            status: self.status,
        }
    }

    // The multiplication by itself.
    // Kept: this and `interrupted` make two calls with two kinds of answer.
    fn undisturbed(self) {
        let mut file = self.registers();
        let answer = run::run(self.main, &mut file, self.start(), 0, 0x1000);
        let outcome = reasons::numbered_answer(answer.outcome);
        report(*b"--", outcome, file, answer.machine);
    }

    // With the handler let in as scheduled.
    fn interrupted(self, name: [u8; 2], schedule: &[u16]) {
        let mut file = self.registers();
        let served = interrupt::interrupted(
            self.main,
            self.handler,
            schedule,
            &mut file,
            self.start(),
        );
        report(name, served.numbered(), file, served.machine);
    }

    // The undisturbed run, each boundary in turn, and all at once.
    fn sweep(self) {
        self.undisturbed();
        for boundary in EVERY {
            self.interrupted(text::hex(boundary as u64), &[boundary]);
        }
        self.interrupted(*b"**", &EVERY);
    }
}

// A name of two characters, reason and words run, then the high half of the product, Q and status, and the handler's register 5.
fn report(name: [u8; 2], outcome: Outcome, file: [u32; 8], machine: Machine) {
    io::write_all(1, &name);
    io::write_all(1, b" ");
    io::write_all(1, &text::hex::<2>(outcome.reason as u64));
    io::write_all(1, b" ");
    io::write_all(1, &text::hex::<4>(outcome.place));
    io::write_all(1, b" ");
    print_word(file[1], b' ');
    print_word(machine.q, b' ');
    print_word(machine.status, b' ');
    print_word(file[5], b'\n');
}

fn main() {
    let mut main = [0u8; 106];
    let mut handler = [0u8; 142];
    io::read_full(0, &mut main);
    io::read_full(0, &mut handler);
    for status in [0, 0xffffffff] {
        let trial = Trial {
            main: &main,
            handler: &handler,
            status,
            loaded: !status,
        };
        trial.sweep();
    }
}
