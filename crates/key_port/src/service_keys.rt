// A key service as a verifier and a signer. It takes no memory but a signature's.
ghost use Rattle.std.specs.Prelude.{◌≡◌, ◌≤◌, true, None, length};
ghost use Rattle.dir_bytes.specs.Causes.{Counts, next_count};
ghost use Rattle.key_port.specs.{Answers.{AnswersBy, CountsAnswers, faults_after}, Requests.{request_text, line_limit}};
ghost use Rattle.key_port.specs.{SignedLines.{sign_text, signed_or_fault}, Signing.{CountsSigning, GivesBy}};
ghost use Rattle.key_port.specs.Signing.{faults_after_signing};
ghost use Rattle.key_port.specs.Services as services;
ghost use Rattle.key_port.specs.SigningServices as signing_services;

use crate::asking::exchange;
use crate::dial::Dial;
use crate::request::request_fits;
use crate::sign_lines::sign_request_fits;
use crate::signer::{SignAnswer, Signer};
use crate::signing::exchange_signing;
use crate::verifier::{KeyKind, Verifier, VerifyAnswer};
use std::alloc::Global;

/// A key service, which answers a line to each line. It is dialed at the first call, at each that comes after a fault,
/// and once more within a call where no byte of an answer comes over the connection that stands. One connection and one
/// count of faults serve both kinds of calls, to verify and to sign.
#[derive(Drop)]
pub struct ServiceKeys<D: Dial> {
    dial: D,
    connection: Option<(D::In, D::Out)>,
    faults: u64,
}

impl<D: Dial> ServiceKeys<D> {
    /// A service that was not dialed yet.
    pub fn new(dial: D) -> ServiceKeys<D>
        ensures dial { result.dial ≡ dial }
        ensures connection { result.connection ≡ None }
        ensures faults { result.faults ≡ 0 }
    {
        ServiceKeys {
            dial,
            connection: None,
            faults: 0,
        }
    }

    /// How often the service has failed. The count stands still at the last `u64`.
    pub fn faults(&self) -> u64
        ensures { result ≡ ⟦<ServiceKeys<D> as Verifier>⟧.faults self.now }
    {
        self.faults
    }

    // Gives back the connection that stands, and takes what a dial gives.
    fn renew(&mut self)
        ensures renews { services.Renews D.gives D.takes_back self.old.dial self.new.dial
            self.old.connection self.new.connection }
        ensures faults { self.new.faults ≡ self.old.faults }
    {
        self.give_back();
        self.connection = self.dial.dial();
    }

    // Gives back the connection that stands.
    fn give_back(&mut self)
        ensures back { services.GivesBack D.takes_back self.old.dial self.new.dial self.old.connection }
        ensures none { self.new.connection ≡ None }
        ensures faults { self.new.faults ≡ self.old.faults }
    {
        if let Some(failed) = self.connection.take() {
            self.dial.take_back(failed);
        }
    }

    // Gives back the connection after a fault, which is counted.
    fn fail(&mut self)
        ensures drops { services.Drops D.takes_back self.old.dial self.new.dial
            self.old.connection self.new.connection }
        ensures faults { self.new.faults ≡ next_count self.old.faults }
        ensures cause { Counts self.old.faults self.new.faults }
    {
        self.give_back();
        self.faults = self.faults.saturating_add(1);
    }

    // Keeps the connection, or gives it back after a fault, which is counted.
    fn settle(&mut self, answer: VerifyAnswer)
        ensures settles { services.Settles D.takes_back self.old.dial self.new.dial
            self.old.connection self.new.connection answer }
        ensures faults { self.new.faults ≡ faults_after self.old.faults answer }
        ensures cause { CountsAnswers self.old.faults self.new.faults answer }
    {
        if answer == VerifyAnswer::Fault {
            self.fail();
        }
    }

    // Asks over the connection that stands.
    fn try_once(
        &mut self,
        kind: KeyKind,
        key: &[u8],
        message: &[u8],
        signature: &[u8],
    ) -> Option<VerifyAnswer>
        requires { length (request_text kind key.now message.now signature.now) ≤ line_limit }
        ensures tried { services.Tries (services.IsExchange D.In.left D.In.faults D.Out.written D.Out.faults
            (request_text kind key.now message.now signature.now)) self.old.connection self.new.connection result }
        ensures dial { self.new.dial ≡ self.old.dial }
        ensures faults { self.new.faults ≡ self.old.faults }
    {
        match &mut self.connection {
            Some((source, sink)) => exchange(source, sink, kind, key, message, signature),
            None => None,
        }
    }

    // Asks over the connection that stands, and where no byte of an answer comes, over a new one.
    fn ask(
        &mut self,
        kind: KeyKind,
        key: &[u8],
        message: &[u8],
        signature: &[u8],
    ) -> Option<VerifyAnswer>
        requires { length (request_text kind key.now message.now signature.now) ≤ line_limit }
        ensures asked { services.Asked (services.IsExchange D.In.left D.In.faults D.Out.written D.Out.faults
            (request_text kind key.now message.now signature.now)) D.gives D.takes_back self.old.dial self.new.dial
            self.old.connection self.new.connection result }
        ensures faults { self.new.faults ≡ self.old.faults }
    {
        if let Some(answer) = self.try_once(kind, key, message, signature) {
            return Some(answer);
        }
        self.renew();
        self.try_once(kind, key, message, signature)
    }

    // Asks for a signature over the connection that stands.
    fn try_to_sign(
        &mut self,
        alloc: Global,
        kind: KeyKind,
        key: &[u8],
        message: &[u8],
    ) -> Option<SignAnswer>
        requires { length (sign_text kind key.now message.now) ≤ line_limit }
        ensures tried { services.Tries (signing_services.IsSigning D.In.left D.In.faults D.Out.written D.Out.faults
            (sign_text kind key.now message.now)) self.old.connection self.new.connection result }
        ensures dial { self.new.dial ≡ self.old.dial }
        ensures faults { self.new.faults ≡ self.old.faults }
        ensures within { GivesBy (λ signature. true) (signed_or_fault result) }
    {
        match &mut self.connection {
            Some((source, sink)) => exchange_signing(alloc, source, sink, kind, key, message),
            None => None,
        }
    }

    // Asks for a signature over the connection that stands, and where no byte of an answer comes, over a new one.
    fn ask_to_sign(
        &mut self,
        alloc: Global,
        kind: KeyKind,
        key: &[u8],
        message: &[u8],
    ) -> Option<SignAnswer>
        requires { length (sign_text kind key.now message.now) ≤ line_limit }
        ensures asked { services.Asked (signing_services.IsSigning D.In.left D.In.faults D.Out.written D.Out.faults
            (sign_text kind key.now message.now)) D.gives D.takes_back self.old.dial self.new.dial
            self.old.connection self.new.connection result }
        ensures faults { self.new.faults ≡ self.old.faults }
        ensures within { GivesBy (λ signature. true) (signed_or_fault result) }
    {
        if let Some(answer) = self.try_to_sign(alloc, kind, key, message) {
            return Some(answer);
        }
        self.renew();
        self.try_to_sign(alloc, kind, key, message)
    }
}

impl<D: Dial> Verifier for ServiceKeys<D> {
    ghost may_accept = { λ kind key message signature. true };

    ghost may_refuse = { λ kind key message signature. true };

    ghost faults = { λ s. s.faults };

    ghost steps = { λ before kind key message signature answer after.
        services.Serves D.In.left D.In.faults D.Out.written D.Out.faults D.gives D.takes_back before.dial after.dial
        before.connection after.connection (request_text kind key message signature) answer };

    fn verify(
        &mut self,
        kind: KeyKind,
        key: &[u8],
        message: &[u8],
        signature: &[u8],
    ) -> VerifyAnswer
        ensures answer { AnswersBy true true result }
        ensures cause { CountsAnswers self.old.faults self.new.faults result }
        // Exactly each fault is counted.
        ensures faults { self.new.faults ≡ faults_after self.old.faults result }
        ensures step { services.Serves D.In.left D.In.faults D.Out.written D.Out.faults D.gives D.takes_back
            self.old.dial self.new.dial self.old.connection self.new.connection (request_text kind key.now message.now signature.now) result }
        ensures long { services.RefusesLong D.takes_back self.old.dial self.new.dial
            self.old.connection self.new.connection (request_text kind key.now message.now signature.now) result }
    {
        if !request_fits(kind, key, message, signature) {
            self.settle(VerifyAnswer::Fault);
            return VerifyAnswer::Fault;
        }
        let heard = self.ask(kind, key, message, signature);
        let answer = heard.unwrap_or(VerifyAnswer::Fault);
        self.settle(answer);
        answer
    }
}

impl<D: Dial> Signer for ServiceKeys<D> {
    ghost may_give = { λ kind key message signature. true };

    ghost faults = { λ s. s.faults };

    ghost steps = { λ before kind key message answer after.
        signing_services.ServesSigning D.In.left D.In.faults D.Out.written D.Out.faults D.gives D.takes_back
        before.dial after.dial before.connection after.connection (sign_text kind key message) answer };

    fn sign(&mut self, alloc: Global, kind: KeyKind, key: &[u8], message: &[u8]) -> SignAnswer
        ensures answer { GivesBy (λ signature. true) result }
        ensures cause { CountsSigning self.old.faults self.new.faults result }
        // Exactly each fault is counted.
        ensures faults { self.new.faults ≡ faults_after_signing self.old.faults result }
        ensures step { signing_services.ServesSigning D.In.left D.In.faults D.Out.written D.Out.faults D.gives D.takes_back
            self.old.dial self.new.dial self.old.connection self.new.connection (sign_text kind key.now message.now) result }
        ensures long { signing_services.RefusesLongSigning D.takes_back self.old.dial self.new.dial
            self.old.connection self.new.connection (sign_text kind key.now message.now) result }
    {
        if !sign_request_fits(kind, key, message) {
            self.fail();
            return SignAnswer::Fault;
        }
        match self.ask_to_sign(alloc, kind, key, message) {
            Some(SignAnswer::Signed(signature)) => SignAnswer::Signed(signature),
            Some(SignAnswer::Memory) => SignAnswer::Memory,
            Some(SignAnswer::Fault) | None => {
                self.fail();
                SignAnswer::Fault
            }
        }
    }
}
