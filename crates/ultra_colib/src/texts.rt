//! The texts of the coordination programs, with their parameters put in.

ghost use Rattle.std.specs.Prelude.{◌≡◌, ◌≤◌, ◌^◌, IfOk, string_bytes};
ghost use Rattle.ultra_colib.specs.Texts.{text_of_lines, gate_text, rw_text, barrier_text, queue_lines, queue_text, tickets_text};

use std::alloc::{AllocError, Global};

/// The text of the gate.
pub(crate) fn gate_text(alloc: Global, bound: u32, rounds: u32) -> Result<String, AllocError>
    ensures { IfOk result (λ text. string_bytes text ≡ gate_text bound rounds) }
{
    format!(in alloc;
        "\
pid r1
addi r1 r1 8
li r3 1
li r4 {bound}
li r5 {rounds}
li r8 4294967295
again:
ld r6 r0
fence
slt r7 r6 r4
jz r7 again
faa r6 r0 r3
fence
slt r7 r6 r4
jnz r7 inside
faa r6 r0 r8
fence
jmp again
inside:
st r1 r3
fence
st r1 r0
fence
faa r6 r0 r8
fence
sub r5 r5 r3
jnz r5 again
halt
"
    )
}

/// The text of the readers and writers.
pub(crate) fn rw_text(alloc: Global, writers: u32, rounds: u32) -> Result<String, AllocError>
    ensures { IfOk result (λ text. string_bytes text ≡ rw_text writers rounds) }
{
    format!(in alloc;
        "\
pid r1
addi r2 r1 8
li r3 1
li r4 65536
li r5 {rounds}
li r6 {writers}
li r10 4294967295
li r11 2
sub r12 r0 r4
slt r7 r1 r6
jnz r7 write
read:
faa r8 r0 r3
fence
slt r9 r8 r4
jnz r9 reading
faa r8 r0 r10
fence
jmp read
reading:
st r2 r3
fence
st r2 r0
fence
faa r8 r0 r10
fence
sub r5 r5 r3
jnz r5 read
halt
write:
faa r8 r0 r4
fence
jz r8 writing
faa r8 r0 r12
fence
jmp write
writing:
st r2 r11
fence
st r2 r0
fence
faa r8 r0 r12
fence
sub r5 r5 r3
jnz r5 write
halt
"
    )
}

/// The text of the barrier.
pub(crate) fn barrier_text(alloc: Global, rounds: u32) -> Result<String, AllocError>
    ensures { IfOk result (λ text. string_bytes text ≡ barrier_text rounds) }
{
    format!(in alloc;
        "\
pid r1
addi r2 r1 8
np r3
add r4 r2 r3
li r5 1
sub r6 r3 r5
li r7 0
li r8 {rounds}
round:
addi r7 r7 1
st r2 r7
fence
faa r9 r0 r5
fence
and r10 r9 r6
sub r9 r9 r10
add r9 r9 r3
wait:
ld r10 r0
fence
slt r11 r10 r9
jnz r11 wait
st r4 r7
fence
seq r11 r7 r8
jz r11 round
halt
"
    )
}

/// The places of a queue.
fn places_of(log_size: u32) -> u32
    requires { log_size ≤ 6 }
    ensures value { result ≡ 2 ^ log_size }
    ensures some { 1 ≤ result }
    ensures few { result ≤ 64 }
{
    2u32.pow(log_size)
}

/// The text of the queue, with these numbers in it.
fn queue_text_with(
    alloc: Global,
    log_size: u32,
    rounds: u32,
    places: u32,
    last: u32,
    items: u32,
    results: u32,
) -> Result<String, AllocError>
    ensures { IfOk result (λ text.
        string_bytes text ≡ text_of_lines (queue_lines log_size rounds places last items results)) }
{
    format!(in alloc;
        "\
pid r1
addi r1 r1 1
np r2
li r3 1
li r4 {places}
li r5 {rounds}
li r15 4294967295
ins:
li r6 0
ld r7 r6
fence
slt r8 r7 r4
jz r8 ins
faa r7 r6 r3
fence
slt r8 r7 r4
jnz r8 put
faa r7 r6 r15
fence
jmp ins
put:
li r6 2
faa r7 r6 r3
fence
shr r8 r7 {log_size}
add r8 r8 r8
li r9 {last}
and r9 r7 r9
addi r10 r9 8
addi r11 r9 {items}
turn1:
ld r12 r10
fence
seq r13 r12 r8
jz r13 turn1
st r11 r1
fence
addi r8 r8 1
st r10 r8
fence
li r6 1
faa r7 r6 r3
fence
del:
li r6 1
ld r7 r6
fence
sub r8 r7 r3
slt r8 r8 r4
jz r8 del
faa r7 r6 r15
fence
sub r8 r7 r3
slt r8 r8 r4
jnz r8 take
faa r7 r6 r3
fence
jmp del
take:
li r6 3
faa r7 r6 r3
fence
shr r8 r7 {log_size}
add r8 r8 r8
addi r8 r8 1
li r9 {last}
and r9 r7 r9
addi r10 r9 8
addi r11 r9 {items}
turn2:
ld r12 r10
fence
seq r13 r12 r8
jz r13 turn2
ld r14 r11
fence
addi r8 r8 1
st r10 r8
fence
li r6 0
faa r7 r6 r15
fence
addi r6 r1 {results}
st r6 r14
fence
add r1 r1 r2
sub r5 r5 r3
jnz r5 ins
halt
"
    )
}

/// The text of the queue with `2^log_size` places.
pub(crate) fn queue_text(alloc: Global, log_size: u32, rounds: u32) -> Result<String, AllocError>
    requires { log_size ≤ 6 }
    ensures { IfOk result (λ text. string_bytes text ≡ queue_text log_size rounds) }
{
    let places = places_of(log_size);
    queue_text_with(
        alloc,
        log_size,
        rounds,
        places,
        places - 1,
        8 + places,
        7 + 2 * places,
    )
}

/// The text of the ticket counter.
pub(crate) fn tickets_text(alloc: Global, rounds: u32) -> Result<String, AllocError>
    ensures { IfOk result (λ text. string_bytes text ≡ tickets_text rounds) }
{
    format!(in alloc;
        "\
li r2 1
li r5 {rounds}
again:
faa r1 r0 r2
fence
sub r5 r5 r2
jnz r5 again
halt
"
    )
}
