// Runs commands: the machine is told an event, does one act, and is told what came of it, until the command has ended or power goes.
ghost use Rattle.std.specs.Prelude.{◌≡◌};
ghost use Rattle.console.specs.Planned.{planned};

use crate::answer;
use crate::device::{Device, PAGE};
use crate::trouble::Trouble;
use answers::{page_of, row_of};
use commands::Command;
use events::{Acts, Event, Machine, Reply, counts, forget, late_after, shows, tell};
use orders::{Cut, Part};
use std::alloc::{AllocError, Global};
use std::marker::PhantomData;
use std::ops::ControlFlow;
use store::Told;

// More acts than any command takes.
const TURNS: u64 = 1 << 40;

#[derive(Clone, Copy)]
enum End {
    Done,
    // By the number that the machine tells.
    Refused(u64),
    // Power went first.
    Cut,
}

// What is noted while a command runs.
#[derive(Clone, Copy)]
struct Notes {
    // Is a row that is told one number?
    counts: bool,
    rows: u64,
    acts: Acts,
}

#[derive(Drop)]
pub struct Session<M> {
    machine: PhantomData<M>,
    memory: Vec<u64>,
    out: Vec<u64>,
    page: [u8; PAGE],
    device: Device,
    cut: Option<Cut>,
    // How many versions were written since all were last made safe.
    pub late: u64,
    with_acts: bool,
}

fn zeros(heap: Global, len: usize) -> Result<Vec<u64>, AllocError> {
    vec![in heap; 0u64; len]
}

impl Notes {
    fn of(event: Event<'_>) -> Notes {
        Notes {
            counts: counts(event),
            rows: 0,
            acts: Acts::default(),
        }
    }
}

impl<M: Machine + Drop> Session<M> {
    // Opens the device, and lets power come.
    pub fn open(rt: &HostRuntime, device: Device, with_acts: bool) -> Result<Self, Trouble> {
        let mut session = Session {
            machine: PhantomData,
            memory: zeros(rt.alloc(), M::MEMORY)?,
            out: zeros(rt.alloc(), store::ROW)?,
            page: [0u8; PAGE],
            device,
            cut: None,
            late: 0,
            with_acts,
        };
        session.wake(rt)?;
        Ok(session)
    }

    // Power will go within the next command.
    pub fn plan(&mut self, cut: Cut)
        ensures { self.new ≡ planned self.old cut }
    {
        self.cut = Some(cut);
    }

    fn put(&mut self, at: u64) -> Result<Reply, Trouble> {
        let page = page_of(self.out.as_slice()).ok_or(Trouble::Fault("it put what is no page"))?;
        if self.device.put(at, page)? {
            Ok(Reply::Next)
        } else {
            Err(Trouble::Fault("it put a page that is not there"))
        }
    }

    fn read(&mut self, at: u64) -> Result<Reply, Trouble> {
        let Some(page) = self.device.read(at)? else {
            return Ok(Reply::NoPage);
        };
        self.page = page;
        Ok(Reply::Page)
    }

    fn show(&self, rt: &HostRuntime, len: u64, one_number: bool) -> Result<Reply, Trouble> {
        let row = row_of(self.out.as_slice(), len).ok_or(Trouble::Fault("it told too long a row"))?;
        if one_number {
            answer::show_count(rt, row)?;
        } else {
            answer::show_version(rt, row)?;
        }
        Ok(Reply::Next)
    }

    // Does what the machine asks for.
    fn obey(
        &mut self,
        rt: &HostRuntime,
        told: Told,
        notes: &mut Notes,
    ) -> Result<ControlFlow<End, Reply>, Trouble> {
        notes.acts = notes.acts.with(told);
        let reply = match told {
            Told::Read(at) => self.read(at)?,
            Told::Put(at) => self.put(at)?,
            Told::Settle => {
                self.device.settle()?;
                Reply::Next
            }
            Told::Tells(len) => {
                notes.rows = notes.rows.saturating_add(1);
                self.show(rt, len, notes.counts)?
            }
            Told::Done => return Ok(ControlFlow::Break(End::Done)),
            Told::No(k) => return Ok(ControlFlow::Break(End::Refused(k))),
        };
        Ok(ControlFlow::Continue(reply))
    }

    // Runs until the end, or until so many acts were done.
    fn run(
        &mut self,
        rt: &HostRuntime,
        first: Event<'_>,
        acts: u64,
        notes: &mut Notes,
    ) -> Result<End, Trouble> {
        let mut event = first;
        // Acts are counted, and nothing is walked by their number.
        for _ in 0..acts {
            let told = tell::<M>(
                self.memory.as_mut_slice(),
                event,
                &self.page,
                self.out.as_mut_slice(),
            );
            match self.obey(rt, told, notes)? {
                ControlFlow::Continue(reply) => event = Event::Back(reply),
                ControlFlow::Break(end) => return Ok(end),
            }
        }
        Ok(End::Cut)
    }

    // Power comes: memory is as at the start.
    fn wake(&mut self, rt: &HostRuntime) -> Result<(), Trouble> {
        forget(self.memory.as_mut_slice());
        self.late = 0;
        let event = Event::On(self.device.pages);
        let mut notes = Notes::of(event);
        match self.run(rt, event, TURNS, &mut notes)? {
            End::Done => Ok(()),
            _ => Err(Trouble::Fault("it did not come up with power")),
        }
    }

    // Power goes, and comes back.
    pub fn power(&mut self, rt: &HostRuntime, left: &[Part]) -> Result<(), Trouble> {
        self.device.stop(left)?;
        self.wake(rt)?;
        println!(rt; "power came back")?;
        Ok(())
    }

    fn show_done(
        &mut self,
        rt: &HostRuntime,
        command: Command<'_>,
        notes: &Notes,
    ) -> Result<(), Trouble> {
        if shows(command) && notes.rows == 0 {
            println!(rt; "nothing")?;
        }
        println!(rt; "done")?;
        self.late = late_after(command, self.late);
        Ok(())
    }

    fn show_end(
        &mut self,
        rt: &HostRuntime,
        command: Command<'_>,
        end: End,
        notes: &Notes,
    ) -> Result<(), Trouble> {
        match end {
            End::Done => self.show_done(rt, command, notes)?,
            End::Refused(k) => answer::show_refusal(rt, k)?,
            End::Cut => return Ok(()),
        }
        if self.with_acts {
            answer::show_acts(rt, notes.acts)?;
        }
        Ok(())
    }

    fn say_within(
        &mut self,
        rt: &HostRuntime,
        command: Command<'_>,
        acts: u64,
    ) -> Result<End, Trouble> {
        let event = Event::Say(command);
        let mut notes = Notes::of(event);
        let end = self.run(rt, event, acts, &mut notes)?;
        self.show_end(rt, command, end, &notes)?;
        Ok(end)
    }

    // Says a command to the store, with a cut of power if one is planned.
    pub fn say(&mut self, rt: &HostRuntime, command: Command<'_>) -> Result<(), Trouble> {
        if let Some(cut) = self.cut.take() {
            self.say_within(rt, command, cut.acts)?;
            return self.power(rt, cut.left.as_slice());
        }
        match self.say_within(rt, command, TURNS)? {
            End::Cut => Err(Trouble::Fault("it did not end")),
            _ => Ok(()),
        }
    }
}
