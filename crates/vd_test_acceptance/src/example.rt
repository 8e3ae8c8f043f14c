//! One example: the words, the files, and how the objects fail.

ghost use Rattle.std.specs.Prelude.{◌≡◌, [], IfOk};

use crate::outside::{Waiting, Writing, drawn_of, net_of, push_bytes, spawner_of};
use std::alloc::{AllocError, Global};
use std::mem;
use vd_base::{Bytes, Items, Texts};
use vd_channel_link::SealedNet;
use vd_fakes::{Mark, MemFiles, MemMarks, MemNet, MemSink, MemSpawner};
use vd_outside::Stored;

/// The room of a stream in memory.
const ROOM: usize = 262_144;

/// The first word of a text, and what stands behind the blank behind it.
fn parted(text: &str) -> (&str, &str) {
    match text.split_once(" ") {
        Some(both) => both,
        None => (text, ""),
    }
}

/// The number that a text is, 0 where it is none.
fn number(text: &str) -> u32 {
    text.parse().unwrap_or(0)
}

#[derive(Drop)]
pub(crate) struct Example {
    name: String,
    words: Texts,
    files: Items<Stored>,
    links: Items<Waiting>,
    children: Items<Writing>,
    marks: Items<Mark>,
    draws: Items<[u8; 32]>,
    failing_files: Items<u64>,
    failing_marks: Items<u64>,
    failing_out: Items<u64>,
    failing_err: Items<u64>,
    failing_net: Items<u64>,
    failing_spawner: Items<u64>,
    most: u32,
    /// Whether the example goes on with the files and marks that the one before left.
    keeps: bool,
    /// Whether the contents of stored files are left out.
    quiet: bool,
}

/// The objects of an example, in memory.
#[derive(Drop)]
pub(crate) struct Objects {
    pub words: Texts,
    pub files: MemFiles,
    pub marks: MemMarks,
    pub out: MemSink,
    pub err: MemSink,
    pub net: SealedNet<MemNet>,
    pub spawner: MemSpawner,
}

impl Example {
    pub(crate) fn new(alloc: Global) -> Result<Example, AllocError> {
        Ok(Example {
            name: String::new(alloc),
            words: Texts::new(alloc),
            files: Items::new(alloc),
            links: Items::new(alloc),
            children: Items::new(alloc),
            marks: Items::new(alloc),
            draws: Items::new(alloc),
            failing_files: Items::new(alloc),
            failing_marks: Items::new(alloc),
            failing_out: Items::new(alloc),
            failing_err: Items::new(alloc),
            failing_net: Items::new(alloc),
            failing_spawner: Items::new(alloc),
            most: 65_536,
            keeps: false,
            quiet: false,
        })
    }

    /// Takes in a line, and says whether it is one.
    pub(crate) fn read(&mut self, alloc: Global, line: &str) -> Result<bool, AllocError> {
        if let Some(text) = line.strip_prefix("|") {
            self.put(text, 1)?;
            return self.put("\n", 1);
        }
        if let Some(text) = line.strip_prefix(">") {
            return self.put(text, 1);
        }
        if let Some(rest) = line.strip_prefix("*") {
            let (count, text) = parted(rest);
            return self.put(text, number(count));
        }
        if let Some(text) = line.strip_prefix("<") {
            return self.put_coming(text);
        }
        if let Some(text) = line.strip_prefix("-") {
            return self.put_line(alloc, text);
        }
        let (word, rest) = parted(line);
        self.set(alloc, word, rest)
    }

    /// Takes in a line that begins with a word.
    fn set(&mut self, alloc: Global, word: &str, rest: &str) -> Result<bool, AllocError> {
        match word {
            "" => {}
            "case" => self.name.push_str(rest)?,
            "words" => self.add_words(rest)?,
            "file" => self.files.push(Stored::copy_of(alloc, rest, b"")?)?,
            "link" => self.add_link(alloc, rest)?,
            "child" => self.children.push(Writing {
                lines: Items::new(alloc),
                status: number(rest),
            })?,
            "mark" => self.marks.push(Mark {
                place: Bytes::from_slice(alloc, rest.as_bytes())?,
                bytes: Some(Bytes::new(alloc)),
            })?,
            "draw" => return self.add_draw(alloc, rest),
            "most" => self.most = number(rest).max(1),
            "keep" => self.keeps = true,
            "quiet" => self.quiet = true,
            "fail" => return self.fail(rest),
            _ => return Ok(false),
        }
        Ok(true)
    }

    /// Takes the words of the command line, which are parted by blanks.
    fn add_words(&mut self, words: &str) -> Result<(), AllocError> {
        for word in words.split(" ") {
            if !word.is_empty() {
                self.words.push(word)?;
            }
        }
        Ok(())
    }

    /// Puts a piece at the end of the last file, so many times.
    fn put(&mut self, text: &str, count: u32) -> Result<bool, AllocError> {
        let Some(mut file) = self.files.pop() else {
            return Ok(false);
        };
        for _ in 0..count {
            file.content.extend_from_slice(text.as_bytes())?;
        }
        self.files.push(file)?;
        Ok(true)
    }

    /// Takes 32 bytes that will be drawn.
    fn add_draw(&mut self, alloc: Global, rest: &str) -> Result<bool, AllocError> {
        match drawn_of(alloc, rest)? {
            Some(drawn) => {
                self.draws.push(drawn)?;
                Ok(true)
            }
            None => Ok(false),
        }
    }

    /// Begins a link that waits at an address.
    fn add_link(&mut self, alloc: Global, address: &str) -> Result<(), AllocError> {
        self.links.push(Waiting {
            address: String::from_str(alloc, address)?,
            coming: Bytes::new(alloc),
            failing: Items::new(alloc),
        })
    }

    /// Has bytes come on the last link.
    fn put_coming(&mut self, text: &str) -> Result<bool, AllocError> {
        let Some(mut link) = self.links.pop() else {
            return Ok(false);
        };
        push_bytes(&mut link.coming, text)?;
        self.links.push(link)?;
        Ok(true)
    }

    /// Has the last child write a line.
    fn put_line(&mut self, alloc: Global, text: &str) -> Result<bool, AllocError> {
        let Some(mut child) = self.children.pop() else {
            return Ok(false);
        };
        child
            .lines
            .push(Bytes::from_slice(alloc, text.as_bytes())?)?;
        self.children.push(child)?;
        Ok(true)
    }

    /// Has a call of the last link fail.
    fn fail_link(&mut self, call: u64) -> Result<bool, AllocError> {
        let Some(mut link) = self.links.pop() else {
            return Ok(false);
        };
        link.failing.push(call)?;
        self.links.push(link)?;
        Ok(true)
    }

    /// Has a call fail: of the files, the marks, the output, the error stream, the net, the last link or the spawner.
    fn fail(&mut self, rest: &str) -> Result<bool, AllocError> {
        let (object, call) = parted(rest);
        let call = u64::from(number(call));
        match object {
            "files" => self.failing_files.push(call)?,
            "marks" => self.failing_marks.push(call)?,
            "out" => self.failing_out.push(call)?,
            "err" => self.failing_err.push(call)?,
            "net" => self.failing_net.push(call)?,
            "link" => return self.fail_link(call),
            "spawner" => self.failing_spawner.push(call)?,
            _ => return Ok(false),
        }
        Ok(true)
    }

    /// What the example is called.
    pub(crate) fn name(&self) -> &str {
        self.name.as_str()
    }

    /// Whether the contents of stored files are left out.
    pub(crate) fn is_quiet(&self) -> bool {
        self.quiet
    }

    /// Goes on with these files and marks of the example before, if that is said. Of marks with one name the first counts, so the
    /// later ones stand before the earlier ones.
    pub(crate) fn go_on(
        &mut self,
        files: Items<Stored>,
        marks: Items<Mark>,
    ) -> Result<(), AllocError> {
        if self.keeps {
            self.files.append(files)?;
            self.marks.append(marks)?;
        }
        Ok(())
    }

    /// Takes the files out.
    fn take_files(&mut self, alloc: Global) -> MemFiles {
        let files = mem::replace(&mut self.files, Items::new(alloc));
        let failing = mem::replace(&mut self.failing_files, Items::new(alloc));
        MemFiles::new(alloc, files, failing)
    }

    /// Takes the marks out.
    fn take_marks(&mut self, alloc: Global) -> MemMarks {
        let marks = mem::replace(&mut self.marks, Items::new(alloc));
        let draws = mem::replace(&mut self.draws, Items::new(alloc));
        let failing = mem::replace(&mut self.failing_marks, Items::new(alloc));
        MemMarks::new(alloc, marks, draws, failing)
    }

    /// Takes the output out.
    fn take_out(&mut self, alloc: Global) -> Result<MemSink, AllocError> {
        let failing = mem::replace(&mut self.failing_out, Items::new(alloc));
        MemSink::new(alloc, ROOM, self.most, failing)
    }

    /// Takes the error stream out.
    fn take_err(&mut self, alloc: Global) -> Result<MemSink, AllocError> {
        let failing = mem::replace(&mut self.failing_err, Items::new(alloc));
        MemSink::new(alloc, ROOM, self.most, failing)
    }

    /// Takes the net out.
    fn take_net(&mut self, alloc: Global) -> Result<SealedNet<MemNet>, AllocError>
        ensures { IfOk result (λ net. net.net.listeners ≡ []) }
    {
        let failing = mem::replace(&mut self.failing_net, Items::new(alloc));
        let net = net_of(alloc, self.links.as_slice(), self.most, failing)?;
        Ok(SealedNet::new(alloc, net))
    }

    /// Takes the spawner out.
    fn take_spawner(&mut self, alloc: Global) -> Result<MemSpawner, AllocError>
        ensures { IfOk result (λ spawner. spawner.children ≡ []) }
    {
        let failing = mem::replace(&mut self.failing_spawner, Items::new(alloc));
        spawner_of(alloc, self.children.as_slice(), failing)
    }

    /// Takes out the words and the objects over which they are run.
    pub(crate) fn take_objects(&mut self, alloc: Global) -> Result<Objects, AllocError>
        ensures listeners { IfOk result (λ objects. objects.net.net.listeners ≡ []) }
        ensures children { IfOk result (λ objects. objects.spawner.children ≡ []) }
    {
        let out = self.take_out(alloc)?;
        let err = self.take_err(alloc)?;
        let net = self.take_net(alloc)?;
        let spawner = self.take_spawner(alloc)?;
        Ok(Objects {
            words: mem::replace(&mut self.words, Texts::new(alloc)),
            files: self.take_files(alloc),
            marks: self.take_marks(alloc),
            out,
            err,
            net,
            spawner,
        })
    }
}
