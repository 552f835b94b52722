//! The command line of `serialize`.

use acta_args::{
    CommandLine, ModelName, UsageFault, flag, model_arg, model_named, option, with_arg,
};
use acta_order::Orders;
use clap::builder::ValueParser;
use clap::{ArgMatches, Command};
use std::alloc::{AllocError, Global};

/// A parsed command line: it asks for a serial order of the kept lines of the standard input on a model.
#[derive(Clone, Copy, PartialEq, Eq, Debug)]
pub struct Asked<'a> {
    /// The orders among which the search may choose.
    pub orders: Orders,
    /// How many states may be searched.
    pub most: u32,
    pub model: ModelName<'a>,
}

// How many states may be searched by default.
const MOST_STATES: u32 = 20_000_000;

// Converts the matches.
fn asked_by<'a>(matches: &ArgMatches<'a>) -> Result<Asked<'a>, UsageFault> {
    let orders = if matches.get_flag("real-time") {
        Orders::RealTime
    } else {
        Orders::All
    };
    match model_named(matches.get_str("MODEL").unwrap_or("@")) {
        Some(model) => Ok(Asked {
            orders,
            most: matches.get_one::<u32>("most").unwrap_or(MOST_STATES),
            model,
        }),
        None => Err(UsageFault::UnknownModel),
    }
}

/// The command line of `serialize`.
pub struct SerializeLine;

impl<'a> CommandLine<'a> for SerializeLine {
    type Asked = Asked<'a>;

    fn surface(alloc: Global) -> Result<Command<'a>, AllocError> {
        let command = Command::new(alloc, "acta serialize").about(
            "Finds a serial order of the committed transactions in the kept lines of the standard input: a replay in this order gives each of their returns. If there is no such order, proves and explains it. The lines need not be a history that MODEL admits",
        );
        let command = command.arg(model_arg(alloc).required(true));
        let help =
            "Takes only orders in which a transaction precedes each transaction that begins after its commit";
        let command = with_arg(command, flag(alloc, "real-time", help));
        let help =
            "Gives up after N states; a state is a list of transactions that an order may begin with";
        let numbers = ValueParser::Unsigned(1, u64::from(u32::MAX));
        let most = option(alloc, "most", "N", help)
            .value_parser(numbers)
            .default_value("20000000");
        with_arg(command, most)
    }

    fn asked(
        _alloc: Global,
        _surface: &mut Command<'a>,
        matches: &ArgMatches<'a>,
    ) -> Result<Asked<'a>, UsageFault> {
        asked_by(matches)
    }
}
