//! Laws of the definitions that the contracts cite. The functions do nothing: their contracts are
//! the laws.

ghost use Rattle.flight_proto.specs.Laws.{PartsJoin, NameIsLastPart, FieldsReadBack, ReadsBack};
ghost use Rattle.flight_proto.specs.Laws.{FitsMemory, IsText, IsCount, IsAny, IsDescriptor};
ghost use Rattle.flight_proto.specs.Laws.{AreOptions, IsStatement};
ghost use Rattle.flight_proto.specs.Laws.{IsQuery, IsUnfiltered, IsWanted, IsAction, IsEndpoint};
ghost use Rattle.flight_proto.specs.Laws.{IsInfo};
ghost use Rattle.flight_proto.specs.Laws.{DataReadsBack, BodiesFollowHeads};
ghost use Rattle.flight_proto.specs.Any.{any_of, any_bytes};
ghost use Rattle.flight_proto.specs.FlightDescriptor.{descriptor_of, descriptor_bytes};
ghost use Rattle.flight_proto.specs.WrappedBytes.{wrapped_of, wrapped_bytes};
ghost use Rattle.flight_proto.specs.PutResult.{update_of, update_bytes, rows_put_of};
ghost use Rattle.flight_proto.specs.PutResult.{rows_put_bytes};
ghost use Rattle.flight_proto.specs.Ticket.{statement_handle_of, statement_ticket_bytes};
ghost use Rattle.flight_proto.specs.StatementIngest.{options_of, options_bytes, statement_of};
ghost use Rattle.flight_proto.specs.StatementIngest.{statement_bytes};
ghost use Rattle.flight_proto.specs.InfoCommand.{query_of, query_bytes, tables_of, tables_bytes};
ghost use Rattle.flight_proto.specs.InfoCommand.{wanted_in, wanted_bytes};
ghost use Rattle.flight_proto.specs.Action.{action_of, action_bytes};
ghost use Rattle.flight_proto.specs.FlightInfo.{location_of, endpoint_of, endpoint_bytes, info_of};
ghost use Rattle.flight_proto.specs.FlightInfo.{info_bytes};

/// The parts of an embedded message read, one after the other, as they read joined.
pub fn parts_join()
    ensures { PartsJoin }
{}

/// The name of a message's type stands after a `/` of its URL, and no `/` stands in it.
pub fn name_is_last_part()
    ensures { NameIsLastPart }
{}

/// The fields that are written are those that are read.
pub fn fields_read_back()
    ensures { FieldsReadBack }
{}

/// A message that is within its range reads from its bytes as it was.
pub fn messages_read_back()
    ensures any { ReadsBack IsAny any_of any_bytes }
    ensures descriptor { ReadsBack IsDescriptor descriptor_of descriptor_bytes }
    ensures flight_data { DataReadsBack }
    ensures wrapped { ReadsBack FitsMemory wrapped_of wrapped_bytes }
    ensures update { ReadsBack IsCount update_of update_bytes }
    ensures rows_put { ReadsBack IsCount rows_put_of rows_put_bytes }
    ensures ticket { ReadsBack FitsMemory statement_handle_of statement_ticket_bytes }
    ensures options { ReadsBack AreOptions options_of options_bytes }
    ensures statement { ReadsBack IsStatement statement_of statement_bytes }
    ensures query { ReadsBack IsQuery query_of query_bytes }
    ensures tables { ReadsBack IsUnfiltered tables_of (λ said. tables_bytes said.include_schema) }
    ensures wanted { ReadsBack IsWanted wanted_in wanted_bytes }
    ensures action { ReadsBack IsAction action_of action_bytes }
    ensures location { ReadsBack IsText location_of wrapped_bytes }
    ensures endpoint { ReadsBack IsEndpoint endpoint_of
        (λ endpoint. endpoint_bytes endpoint.ticket) }
    ensures info { ReadsBack IsInfo info_of info_bytes }
{}

/// A FlightData without a descriptor is its head, and then its body.
pub fn bodies_follow_heads()
    ensures { BodiesFollowHeads }
{}
