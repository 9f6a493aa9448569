//! The lines of a transcript as text.

ghost use Rattle.std.specs.Prelude.{◌≡◌, ◌+◌, ◌*◌, ◌++◌, ◌≤◌, ◌<◌, [], ◌∷◌, codes, length, map, pos};
ghost use Rattle.std.specs.Fmt.{decimal, signed_decimal};
ghost use Rattle.host_port.specs.LineText.{blanked};
ghost use Rattle.xinu_base.specs.declared.lines.TranscriptLine.TheVariants as variant;
ghost use Rattle.xinu_base.specs.Names as names;
ghost use Rattle.xinu_model.specs.Text as model;

use host_port::Line;
use xinu_base::{
    Call, Pid, PoolId, State, TranscriptLine, TtyMode, before_zero, call_args, call_name, is_call,
};

/// The text of a line, with its line feed.
pub fn render(line: &TranscriptLine) -> Line
    ensures { result ≡ model.line_text line.now }
{
    let mut text = Line::new();
    put_fields(&mut text, line);
    text.end();
    text
}

// Appends the fields of a line.
fn put_fields(text: &mut Line, line: &TranscriptLine)
    requires { text.old ≡ [] }
    ensures put { text.new ≡ model.with_fields [] (model.line_fields line.now) }
    ensures size { length text.new ≤ 150 }
{
    match line {
        TranscriptLine::Call(p, call) => put_call(text, *p, call),
        TranscriptLine::Trap(p, cause) => put_state(text, "trap", *p, cause.name()),
        TranscriptLine::File(p, moment) => put_state(text, "file", *p, moment.name()),
        TranscriptLine::Return(p, value) => put_two(text, "ret", number(*p), i64::from(*value)),
        TranscriptLine::Con(byte) => {
            text.word("con");
            text.word("");
            text.hex2(*byte);
        }
        TranscriptLine::Switch(p) => put_numbers(text, "run", &[number(*p)]),
        TranscriptLine::Now(ticks, quantum) => {
            put_two(text, "now", i64::from(*ticks), i64::from(*quantum));
        }
        TranscriptLine::Process {
            process,
            state,
            priority,
            parent,
            message,
            name,
        } => {
            put_entry(text, *process, *state, *priority, *parent);
            put_message(text, *message);
            put_name(text, name);
        }
        TranscriptLine::Ready(p, key) => put_two(text, "ready", number(*p), i64::from(*key)),
        TranscriptLine::Semaphore(sem, count) => {
            put_two(text, "sem", sem.index() as i64, i64::from(*count));
        }
        TranscriptLine::Waiter(sem, p) => put_two(text, "wait", sem.index() as i64, number(*p)),
        TranscriptLine::Sleeper(p, wake) => {
            put_two(text, "sleep", number(*p), i64::from(*wake));
        }
        TranscriptLine::Free(address, bytes) => {
            put_two(text, "free", i64::from(*address), i64::from(*bytes));
        }
        TranscriptLine::Pool {
            pool,
            size,
            free,
            held,
        } => put_pool(text, *pool, *size, *free, *held),
        TranscriptLine::Buffer(pool, address) => {
            put_two(text, "buf", pool.index() as i64, i64::from(*address));
        }
        TranscriptLine::Port {
            port,
            seq,
            messages,
        } => put_numbers(
            text,
            "port",
            &[port.index() as i64, i64::from(*seq), i64::from(*messages)],
        ),
        TranscriptLine::Node(port, message) => {
            put_two(
                text,
                "node",
                port.index() as i64,
                i64::from(message.cast_signed()),
            );
        }
        TranscriptLine::Console {
            mode,
            committed,
            line,
            output,
            echo,
            held,
        } => put_console(text, *mode, *committed, *line, *output, *echo, *held),
        TranscriptLine::Disk0(requests) => put_numbers(text, "disk0", &[i64::from(*requests)]),
        TranscriptLine::OpenFile(dev, position, size) => put_numbers(
            text,
            "lfile",
            &[dev.index() as i64, i64::from(*position), i64::from(*size)],
        ),
        TranscriptLine::Disk1(busy) => {
            text.word("disk1");
            text.word(busy_name(*busy));
        }
        TranscriptLine::End(end) => {
            text.word("end");
            text.word(end.name());
        }
    }
}

// Appends a field and two numbers.
fn put_two(text: &mut Line, field: &str, first: i64, second: i64)
    requires empty { text.old ≡ [] }
    requires short { length field.now ≤ 5 }
    ensures put { text.new ≡ model.with_fields [] (field.now ∷ signed_decimal first ∷ signed_decimal second ∷ []) }
    ensures size { length text.new ≤ 150 }
{
    put_numbers(text, field, &[first, second]);
}

// Appends a field and numbers.
fn put_numbers(text: &mut Line, field: &str, numbers: &[i64])
    requires empty { text.old ≡ [] }
    requires short { length field.now ≤ 5 }
    requires few { length numbers.now ≤ 4 }
    ensures put { text.new ≡ model.with_fields [] (field.now ∷ map signed_decimal numbers.now) }
    ensures size { length text.new ≤ 150 }
{
    text.word(field);
    for number in numbers {
        text.number(*number);
    }
}

// Appends a field, the number of a process, and a field that says what became of it.
fn put_state(text: &mut Line, field: &str, p: Pid, what: &str)
    requires empty { text.old ≡ [] }
    requires short { length field.now ≤ 5 }
    requires small { length what.now ≤ 10 }
    ensures put { text.new ≡ model.with_fields [] (field.now ∷ decimal p ∷ what.now ∷ []) }
    ensures size { length text.new ≤ 150 }
{
    text.word(field);
    put_process(text, p);
    text.word(what);
}

// Appends the fields of a pool.
fn put_pool(text: &mut Line, pool: PoolId, size: u32, free: u32, held: u32)
    requires { text.old ≡ [] }
    ensures put { text.new ≡ model.with_fields [] (model.line_fields (variant.Pool pool size free held)) }
    ensures size { length text.new ≤ 150 }
{
    put_numbers(
        text,
        "pool",
        &[
            pool.index() as i64,
            i64::from(size),
            i64::from(free),
            i64::from(held),
        ],
    );
}

// Appends the fields of the console.
fn put_console(
    text: &mut Line,
    mode: TtyMode,
    committed: u32,
    line: u32,
    output: u32,
    echo: u32,
    held: bool,
)
    requires { text.old ≡ [] }
    ensures put { text.new ≡ model.with_fields [] (model.line_fields (variant.Console mode committed line output echo held)) }
    ensures size { length text.new ≤ 150 }
{
    text.word("console");
    text.word(mode.name());
    text.number(i64::from(committed));
    text.number(i64::from(line));
    text.number(i64::from(output));
    text.number(i64::from(echo));
    text.word(held_name(held));
}

// The number of a process.
fn number(p: Pid) -> i64
    ensures { result ≡ pos p }
{
    p.index() as i64
}

// Appends the fields of a call.
fn put_call(text: &mut Line, p: Pid, call: &Call)
    requires { text.old ≡ [] }
    ensures put { text.new ≡ model.with_fields [] (model.line_fields (variant.Call p call.now)) }
    ensures size { length text.new ≤ 150 }
{
    text.word("call");
    put_process(text, p);
    if is_call(call.number) {
        text.word(call_name(call.number));
        put_arguments(text, &call.args[..call_args(call.number)]);
    } else {
        text.word("unknown");
        put_signed(text, call.number);
    }
}

// Appends the arguments of a call as signed numbers.
fn put_arguments(text: &mut Line, args: &[u32])
    requires few { length args.now ≤ 6 }
    requires fits { length text.old ≤ 60 }
    ensures put { text.new ≡ model.with_fields text.old (map model.signed_field args.now) }
    ensures size { length text.new ≤ length text.old + 72 }
{
    for arg in args {
        put_signed(text, *arg);
    }
}

// Appends the first fields of an entry of the process table.
fn put_entry(text: &mut Line, p: Pid, state: State, priority: i16, parent: Pid)
    requires { text.old ≡ [] }
    ensures put { text.new ≡ model.with_fields [] (codes "proc" ∷ decimal p ∷ names.state_name state ∷ signed_decimal priority ∷ decimal parent ∷ []) }
    ensures size { length text.new ≤ 60 }
{
    text.word("proc");
    put_process(text, p);
    text.word(state.name());
    text.number(i64::from(priority));
    put_process(text, parent);
}

// Appends the message that a process holds, or a hyphen.
fn put_message(text: &mut Line, message: Option<u32>)
    requires { length text.old ≤ 100 }
    ensures put { text.new ≡ blanked text.old ++ model.message_field message }
    ensures size { length text.new ≤ length text.old + 12 }
{
    match message {
        Some(message) => put_signed(text, message),
        None => text.word("-"),
    }
}

// Appends the name of a process in hexadecimal digits, or a hyphen.
fn put_name(text: &mut Line, name: &[u8; 15])
    requires { length text.old ≤ 110 }
    ensures put { text.new ≡ blanked text.old ++ model.name_field name.now }
    ensures size { length text.new ≤ length text.old + 31 }
{
    let name = before_zero(name);
    if name.is_empty() {
        text.word("-");
    } else {
        text.word("");
        text.hex(name);
    }
}

// Appends the number of a process.
fn put_process(text: &mut Line, p: Pid)
    requires { length text.old ≤ 100 }
    ensures put { text.new ≡ blanked text.old ++ decimal p }
    ensures size { length text.new ≤ length text.old + 12 }
{
    text.number(p.index() as i64);
}

// Appends a word as a signed number.
fn put_signed(text: &mut Line, word: u32)
    requires { length text.old ≤ 139 }
    ensures put { text.new ≡ blanked text.old ++ model.signed_field word }
    ensures size { length text.new ≤ length text.old + 12 }
{
    text.number(i64::from(word.cast_signed()));
}

fn held_name(held: bool) -> &'static str
    ensures word { result.now ≡ model.held_name held }
    ensures short { length result.now ≤ 4 }
{
    if held { "held" } else { "run" }
}

fn busy_name(busy: bool) -> &'static str
    ensures word { result.now ≡ model.busy_name busy }
    ensures short { length result.now ≤ 5 }
{
    if busy { "busy" } else { "clean" }
}
