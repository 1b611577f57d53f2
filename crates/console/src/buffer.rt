// The buffer between input and output: complete lines that are not listed yet, and what is kept of the line behind them.
ghost use Rattle.std.specs.Prelude.{◌≡◌, ◌+◌, ◌-◌, ◌≤◌, ◌<◌, length};
ghost use Rattle.listing.specs.Cut.{most_kept};

use grammar::state::Parser;
use listing::feeds::line_end;

// So many bytes of a line are kept: enough to tell that it is too long for a symbol.
pub const MOST_KEPT: usize = Parser::SYMBOL + 1;

// The complete lines stand from `from` to `start`, the line without line feed from there to `end`.
#[derive(Drop)]
pub struct Buffer<'a> {
    pub lines: &'a mut [u8],
    pub from: usize,
    pub start: usize,
    pub end: usize,
    ghost first: { from ≤ start },
    ghost second: { start ≤ end },
    ghost inside: { end ≤ length lines.now },
    ghost cut: { end ≤ start + most_kept },
}

impl<'a> Buffer<'a> {
    ghost use Rattle.console.specs.Buffer.{Nothing, waiting, Skips, Moves, EndsLine, Completes, Puts, Keeps, Adds};

    pub fn new(lines: &'a mut [u8]) -> Buffer<'a>
        ensures nothing { Nothing lines.old result }
        ensures lent { result.lines.ghost_name ≡ lines.entry.ghost_name }
    {
        Buffer {
            lines,
            from: 0,
            start: 0,
            end: 0,
        }
    }

    // The complete lines.
    pub fn waiting(&self) -> &[u8]
        ensures { result.now ≡ waiting self.now }
    {
        &self.lines[self.from..self.start]
    }

    // The first n bytes of the complete lines are listed.
    pub fn skip(&mut self, n: usize)
        requires { self.old.from + n ≤ self.old.start }
        ensures { Skips n self.old self.new }
    {
        self.from += n;
    }

    // Moves the line without line feed to the front.
    fn move_down(&mut self)
        ensures { Moves self.old self.new }
    {
        self.lines.copy_within(self.start..self.end, 0);
        self.end -= self.start;
        self.start = 0;
        self.from = 0;
    }

    fn end_line(&mut self)
        requires { self.old.end < length self.old.lines.now }
        ensures { EndsLine self.old self.new }
    {
        self.lines[self.end] = b'\n';
        self.end += 1;
        self.start = self.end;
    }

    // Completes the line without line feed, if it has bytes: the input ends here.
    fn complete(&mut self)
        requires { self.old.end < length self.old.lines.now }
        ensures { Completes self.old self.new }
    {
        if self.end > self.start {
            self.end_line();
        }
    }

    // Puts the bytes of `part` behind the others, but no more than are kept of a line.
    fn keep_part(&mut self, part: &[u8])
        requires { self.old.end + length part.now ≤ length self.old.lines.now }
        ensures { Puts part.now self.old self.new }
    {
        let n = part.len().min(MOST_KEPT - (self.end - self.start));
        let end = self.end + n;
        self.lines[self.end..end].copy_from_slice(&part[..n]);
        self.end = end;
    }

    // Puts the bytes of `chunk` behind the others, each line cut to the bytes that are kept.
    fn keep(&mut self, chunk: &[u8])
        requires { self.old.end + length chunk.now ≤ length self.old.lines.now }
        ensures { Keeps chunk.now self.old self.new }
    {
        let mut rest = chunk;
        while !rest.is_empty() {
            let feed = line_end(rest, 0);
            self.keep_part(&rest[..feed]);
            rest = &rest[feed..];
            if !rest.is_empty() {
                self.end_line();
                rest = &rest[1..];
            }
        }
    }

    // Puts a chunk of the input behind the line without line feed, which goes to the front. An empty chunk is the input's end.
    pub fn add_chunk(&mut self, chunk: &[u8])
        requires { most_kept + 1 + length chunk.now ≤ length self.old.lines.now }
        ensures { Adds chunk.now self.old self.new }
    {
        self.move_down();
        if chunk.is_empty() {
            self.complete();
        } else {
            self.keep(chunk);
        }
    }
}
