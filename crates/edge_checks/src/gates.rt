// A gate in memory.
use dir_bytes::{MemorySink, MemorySource};
use dir_http::{Gate, GateAnswer, ListenAnswer, MemoryGate};
use std::collections::VecDeque;
use std::test::Fail;

#[test]
fn a_gate_gives_its_answers_and_closes(rt: HostRuntime) -> Result<(), Fail> {
    let alloc = rt.alloc();
    let input = MemorySource::new(Vec::new(alloc), Vec::new(alloc), Vec::new(alloc));
    let output = MemorySink::new(Vec::new(alloc), 1, Vec::new(alloc));
    let mut answers = VecDeque::new(alloc);
    answers.push_back(GateAnswer::Idle)?;
    answers.push_back(GateAnswer::Connection(input, output))?;
    let mut gate = MemoryGate::new(answers, [3].to_vec(alloc)?);
    if gate.listen(b"192.0.2.1:80") != ListenAnswer::Listening {
        return Err(Fail::new("it does not listen"));
    }
    match (gate.next(), gate.next(), gate.next(), gate.next()) {
        (GateAnswer::Idle, GateAnswer::Fault, GateAnswer::Connection(_, _), GateAnswer::Closed) => {
            Ok(())
        }
        _ => Err(Fail::new("another answer")),
    }
}
